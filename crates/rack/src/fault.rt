use crate::unit::Unit;

// Why a unit rejects a transfer: it is absent; it does not allow the transfer; it has no such block, or no
// room for it; the block to be read is damaged. Told are the unit and, of the last two, the block.
#[derive(Clone, Copy, PartialEq, Eq, Debug)]
pub enum UnitFault {
    Absent(Unit),
    NotAllowed(Unit),
    NoBlock(Unit, u16),
    Damaged(Unit, u16),
}
