// A symbol: its characters by their codes, padded with 0.
// Names go by their codes, like words in a dictionary.
#[derive(Clone, Copy, PartialEq, Eq, PartialOrd, Ord, Debug)]
pub struct Name {
    pub codes: [u8; 10],
}
