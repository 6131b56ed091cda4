use word::Word;

// A sum: the word that stays, and whether the sum was 2^30 or more. Both always mean something, as what
// `overflowing_add` gives for a number.
#[derive(Clone, Copy, PartialEq, Eq, Debug)]
pub struct Sum {
    pub word: Word,
    pub overflow: bool,
}
