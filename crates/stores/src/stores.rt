use crate::disk::Disk;
use crate::tape::Tape;

// Tapes and disks by their numbers, the disks from 8 on; an absent unit is none.
#[derive(Drop)]
pub struct Stores {
    pub(crate) tapes: [Option<Tape>; 8],
    pub(crate) disks: [Option<Disk>; 8],
}
