use machine::Machine;

// A machine that a deck was loaded into, with its rack.
#[derive(Drop)]
pub struct Loaded<R> {
    pub(crate) machine: Machine<R>,
}
