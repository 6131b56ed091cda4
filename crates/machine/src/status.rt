use crate::counts::Counts;
use crate::phase::Phase;
use flights::Mark;

// What is told of a machine.
#[derive(Clone, Copy, PartialEq, Eq, Debug)]
pub struct Status {
    pub phase: Phase,
    pub mark: Option<Mark>,
    pub counts: Counts,
}
