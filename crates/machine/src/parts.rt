use crate::counts::Counts;
use crate::j::J;
use crate::phase::Phase;
use cpu::Processor;
use flights::{Flights, Mark};

// The parts of a machine.
#[derive(Drop)]
pub struct Parts<R> {
    pub rack: R,
    pub processor: Processor,
    pub flights: Flights,
    pub j: J,
    pub counts: Counts,
    pub mark: Option<Mark>,
    pub phase: Phase,
}
