use word::{Sign, Word};

// What an instruction says besides its operation: its time, its sign and its M.
#[derive(Clone, Copy)]
pub(crate) struct Command {
    pub(crate) time: u32,
    pub(crate) sign: Sign,
    pub(crate) m: Word,
}
