ghost use Rattle.std.specs.Prelude.{◌≤◌};

use crate::sign::Sign;

// What an index register holds: a word whose bytes 1 to 3 are 0.
#[derive(Clone, Copy, PartialEq, Eq, Debug)]
pub struct Index {
    pub sign: Sign,
    pub magnitude: u16,
    ghost small: { magnitude ≤ 4095 },
}

// The word's magnitude is beyond 4,095.
#[derive(Clone, Copy, PartialEq, Eq, Debug)]
pub struct BeyondIndex;
