// Where a test goes on: what J is set to, if it jumps, and the next location.
#[derive(Clone, Copy)]
pub(crate) struct Turn {
    pub(crate) jump: Option<u16>,
    pub(crate) location: u16,
}
