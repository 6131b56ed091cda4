// A unit by its number, as an instruction names it; a number that no kind has names an absent unit.
#[derive(Clone, Copy, PartialEq, Eq, Debug)]
pub struct Unit {
    pub number: u8,
}
