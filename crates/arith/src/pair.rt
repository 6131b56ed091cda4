use word::Word;

// The registers A and X together, ten bytes.
#[derive(Clone, Copy, PartialEq, Eq, Debug)]
pub struct Pair {
    pub a: Word,
    pub x: Word,
}
