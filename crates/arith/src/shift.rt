// The shifts of A and of AX.
#[derive(Clone, Copy, PartialEq, Eq, Debug)]
pub enum Shift {
    Sla,
    Sra,
    Slax,
    Srax,
    Slc,
    Src,
}
