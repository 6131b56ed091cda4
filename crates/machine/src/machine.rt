ghost use Rattle.flights.specs.Flights.{states_in};
ghost use Rattle.machine.specs.Bounds.{Clocks, Dues, Used};

use crate::parts::Parts;

// A machine that was loaded, with its rack. None of its counts can wrap.
#[derive(Drop)]
pub struct Machine<R> {
    pub(crate) parts: Parts<R>,
    ghost clocks: { Clocks parts.counts },
    ghost used: { Used parts.counts parts.phase },
    ghost dues: { Dues parts.counts (states_in parts.flights.states) },
}
