use word::Word;

// A line of the listing: the location and the word, if it has them, paired as in a table, and the card's 80 columns,
// which are blank where it has no card.
#[derive(Clone, Copy, PartialEq, Eq, Debug)]
pub struct Line {
    pub at: Option<(u16, Word)>,
    pub card: [u8; 80],
}
