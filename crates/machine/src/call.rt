// A call that a loaded machine takes: a run of a budget of steps, the word at a location, how the machine
// stands, and a try at closing it.
#[derive(Clone, Copy, PartialEq, Eq, Debug)]
pub enum Call {
    Run(u32),
    Peek(u16),
    Status,
    Close,
}
