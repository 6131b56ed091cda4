use crate::fault::Rejected;
use crate::flight::Flight;
use rack::Unit;

// A transfer under way, with its unit and the time when it is due.
#[derive(Clone, Copy)]
pub(crate) struct Due {
    pub(crate) unit: Unit,
    pub(crate) flight: Flight,
    pub(crate) time: u64,
}

// A transfer that was rejected, and when it was due.
#[derive(Clone, Copy)]
pub struct Broken {
    pub due: u64,
    pub rejected: Rejected,
}
