// The causes for which a deck is rejected, each with its number.
#[derive(Clone, Copy, PartialEq, Eq, Debug)]
pub enum Cause {
    // over 600 cards, over 80 bytes, or a byte without code
    Text = 1,
    // LOC is no symbol, or column 11 or 16 is filled
    Columns = 2,
    // the symbol in LOC is defined already
    DefinedTwice = 3,
    // OP is blank or no operation's name
    Operation = 4,
    // ADDRESS is not what the operation takes
    Address = 5,
    // ADDRESS names a symbol that is not defined
    Undefined = 6,
    // a value or the location is out of range
    Range = 7,
    // the deck has no END
    NoEnd = 8,
    // one symbol more than 500
    TooManySymbols = 9,
}

// A deck rejected: the cause, and the card, counted from 1, of which it holds.
#[derive(Clone, Copy, PartialEq, Eq, Debug)]
pub struct Rejection {
    pub cause: Cause,
    pub card: usize,
}

// Why there is no deck: it is rejected, or memory is wanting.
#[derive(Clone, Copy, PartialEq, Eq, Debug)]
pub enum Refusal {
    Rejected(Rejection),
    NoMemory,
}
