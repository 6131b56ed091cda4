use table::Name;
use word::Word;

// What a card assembles: a word at a location, and the symbol not yet defined that its address waits
// for, if it waits for one.
#[derive(Clone, Copy, PartialEq, Eq, Debug)]
pub struct Made {
    pub location: u16,
    pub word: Word,
    pub awaits: Option<Name>,
}

// A line of the listing to be: the card's 80 columns, and what it assembles; nothing is assembled by a
// remark, EQU, ORIG and END.
#[derive(Clone, Copy, PartialEq, Eq, Debug)]
pub struct Draft {
    pub card: [u8; 80],
    pub made: Option<Made>,
}
