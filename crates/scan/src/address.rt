// The parts of an instruction's address: A, the index and the field, if they are there.
#[derive(Clone, Copy, PartialEq, Eq, Debug)]
pub struct Parts<'a> {
    pub a: &'a [u8],
    pub index: Option<&'a [u8]>,
    pub field: Option<&'a [u8]>,
}

// A piece of a W-value: its expression, its field, if it has one, and the text of the other
// pieces, if there are any.
#[derive(Clone, Copy, PartialEq, Eq, Debug)]
pub struct Piece<'a> {
    pub value: &'a [u8],
    pub field: Option<&'a [u8]>,
    pub rest: Option<&'a [u8]>,
}
