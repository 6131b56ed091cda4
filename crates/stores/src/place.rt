ghost use Rattle.stores.specs.Places.{Stands};

use rack::{Kind, Unit};

// Where a unit is in a rack: the tapes are counted from unit 0, the disks from unit 8.
#[derive(Clone, Copy, PartialEq, Eq, Debug)]
pub enum Place {
    Tape(usize),
    Disk(usize),
}

impl Place {
    // Where a unit is; none where its number is no tape's or disk's.
    pub(crate) fn of(unit: Unit) -> Option<Place>
        ensures { Stands unit.number result }
    {
        let number = usize::from(unit.number);
        match unit.kind()? {
            Kind::Tape => Some(Place::Tape(number)),
            Kind::Disk => Some(Place::Disk(number - 8)),
            _ => None,
        }
    }
}
