// A location of memory, as a key.
// Locations go by their numbers.
#[derive(Clone, Copy, PartialEq, Eq, PartialOrd, Ord, Debug)]
pub struct Location(pub u16);
