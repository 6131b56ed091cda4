use crate::closed::Closed;
use crate::loaded::Loaded;

// A machine after a list of calls: it was closed by one of them, or it was not.
#[derive(Drop)]
pub enum Room<R> {
    Open(Loaded<R>),
    Closed(Closed<R>),
}
