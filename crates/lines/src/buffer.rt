// The refusal of a buffer: the text is longer, by its length.
#[derive(Clone, Copy, PartialEq, Eq, Debug)]
pub struct TooLong {
    pub length: usize,
}
