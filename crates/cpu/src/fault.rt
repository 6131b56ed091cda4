use word::Word;

// Why an instruction is rejected: a location outside 0 to 3999, which is told; an operation that is not
// listed, an index beyond 4,095, or a shift by a negative number, of which the instruction's location is told.
#[derive(Clone, Copy, PartialEq, Eq, Debug)]
pub enum Fault {
    Outside(Word),
    Unlisted(u16),
    BeyondIndex(u16),
    NegativeShift(u16),
}
