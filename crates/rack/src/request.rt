use crate::unit::Unit;
use word::Word;

// What is asked of a unit: to read or to write a block, by its number on a disk, or to move by a number.
#[derive(Clone, Copy, PartialEq, Eq, Debug)]
pub enum Transfer {
    Take(u16),
    Put(u16),
    Shift(Word),
}

// A transfer of a unit.
#[derive(Clone, Copy, PartialEq, Eq, Debug)]
pub struct Request {
    pub unit: Unit,
    pub transfer: Transfer,
}
