ghost use Rattle.std.specs.Prelude.{◌≡◌};
ghost use Rattle.flights.specs.Flights.{later, opened, state_after};

use crate::flight::{Event, Flight, UnitState};

impl UnitState {
    // The state after an event.
    pub fn after(self, event: Event) -> UnitState
        ensures { result ≡ state_after event self }
    {
        match (self, event) {
            (_, Event::Issued(flight, due)) => UnitState::Busy(flight, due),
            (UnitState::Idle, Event::CarriedOut) => UnitState::Idle,
            (UnitState::Busy(flight, _), Event::CarriedOut) => UnitState::Done(flight),
            (UnitState::Done(flight), Event::CarriedOut) => UnitState::Done(flight),
            (_, Event::Acknowledged) => UnitState::Idle,
        }
    }

    // The transfer of an open unit.
    pub fn opened(self) -> Option<Flight>
        ensures { result ≡ opened self }
    {
        match self {
            UnitState::Idle => None,
            UnitState::Busy(flight, _) | UnitState::Done(flight) => Some(flight),
        }
    }

    // The later of a time and that when the unit is ready.
    pub fn later(self, time: u64) -> u64
        ensures { result ≡ later time self }
    {
        match self {
            UnitState::Busy(_, due) => time.max(due),
            UnitState::Idle | UnitState::Done(_) => time,
        }
    }
}
