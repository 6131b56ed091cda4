// The kinds of units.
#[derive(Clone, Copy, PartialEq, Eq, Debug)]
pub enum Kind {
    Tape,
    Disk,
    Reader,
    Punch,
    Printer,
}
