use cpu::Span;
use rack::Transfer;

// A transfer that was issued: what is asked of the unit, the area, which is empty unless a block is moved, and
// the location of the instruction.
#[derive(Clone, Copy, PartialEq, Eq, Debug)]
pub struct Flight {
    pub transfer: Transfer,
    pub area: Span,
    pub location: u16,
}

// A unit as the program sees it. It is open from the issue of a transfer until the program acknowledges it,
// and busy until the transfer is due.
#[derive(Clone, Copy, PartialEq, Eq, Debug)]
pub enum UnitState {
    Idle,
    Busy(Flight, u64),
    Done(Flight),
}

// What becomes of a unit's transfer.
#[derive(Clone, Copy)]
pub enum Event {
    Issued(Flight, u64),
    CarriedOut,
    Acknowledged,
}
