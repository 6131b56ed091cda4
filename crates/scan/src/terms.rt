// What joins an atom to what stands before it: + - * / // and the colon.
#[derive(Clone, Copy, PartialEq, Eq, Debug)]
pub enum Operator {
    Plus,
    Minus,
    Times,
    Divide,
    Fraction,
    Colon,
}

// A number, the ten codes of a symbol, or the asterisk that stands for the location.
#[derive(Clone, Copy, PartialEq, Eq, Debug)]
pub enum Atom {
    Number(u64),
    Symbol([u8; 10]),
    Here,
}

// An atom with its operator.
#[derive(Clone, Copy, PartialEq, Eq, Debug)]
pub struct Term {
    pub op: Operator,
    pub atom: Atom,
}
