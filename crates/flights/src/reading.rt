ghost use Rattle.std.specs.Prelude.{◌≡◌, ◌<◌};
ghost use Rattle.flights.specs.Flights.{states_in, units};

use crate::flight::UnitState;
use crate::flights::Flights;
use rack::Unit;

impl Flights {
    // The state of the unit of a number.
    #[tactic(auto, using(crate::proofs::States::state_read))]
    pub(crate) fn at(&self, number: u8) -> UnitState
        requires { number < units }
        ensures { result ≡ states_in self.now.states number }
    {
        self.states[usize::from(number)]
    }

    // The state of a unit; a number that no unit has is idle.
    #[tactic(auto, using(crate::proofs::States::states_past))]
    pub fn state(&self, unit: Unit) -> UnitState
        ensures { result ≡ states_in self.now.states unit.number }
    {
        if unit.number < 19 {
            self.at(unit.number)
        } else {
            UnitState::Idle
        }
    }
}
