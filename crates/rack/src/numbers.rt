ghost use Rattle.std.specs.Prelude.{◌≡◌};
ghost use Rattle.rack.specs.Transfers.{fault_number};
ghost use Rattle.rack.specs.Units.{kind_of, block_size};

use crate::fault::UnitFault;
use crate::kind::Kind;
use crate::unit::Unit;

impl Unit {
    // Which kind of unit has the number, if one has.
    pub fn kind(self) -> Option<Kind>
        ensures { result ≡ kind_of self.number }
    {
        match self.number {
            0..=7 => Some(Kind::Tape),
            8..=15 => Some(Kind::Disk),
            16 => Some(Kind::Reader),
            17 => Some(Kind::Punch),
            18 => Some(Kind::Printer),
            _ => None,
        }
    }
}

impl Kind {
    // How many words a block has.
    pub fn block_size(self) -> usize
        ensures { result ≡ block_size self }
    {
        match self {
            Kind::Tape | Kind::Disk => 100,
            Kind::Reader | Kind::Punch => 16,
            Kind::Printer => 24,
        }
    }
}

impl UnitFault {
    // The number of the rejection.
    pub fn number(self) -> u8
        ensures { result ≡ fault_number self }
    {
        match self {
            UnitFault::Absent(_) => 14,
            UnitFault::NotAllowed(_) => 15,
            UnitFault::NoBlock(_, _) => 16,
            UnitFault::Damaged(_, _) => 17,
        }
    }
}
