ghost use Rattle.std.specs.Prelude.{◌≡◌};
ghost use Rattle.stores.specs.declared.contents.NotMade.TheVariants.{OutOfMemory};

use crate::block::Block;
use rack::Ring;
use std::alloc::AllocError;

// What a unit is made with: the blocks that it has room for; its blocks, none where one is damaged; the
// position at which it stands; its ring; and the time of its transfers.
#[derive(Clone, Copy, Debug)]
pub struct Contents<'a> {
    pub capacity: u16,
    pub blocks: &'a [Option<Block>],
    pub position: u16,
    pub ring: Ring,
    pub time: u16,
}

// Why a unit is not made: its number is no tape's or disk's; the rules do not allow its contents;
// memory is wanting.
#[derive(Clone, Copy, PartialEq, Eq, Debug)]
pub enum NotMade {
    NoStore,
    NotAllowed,
    OutOfMemory,
}

impl From<AllocError> for NotMade {
    ghost from_gives = { λ _ r. r ≡ OutOfMemory };

    fn from(_error: AllocError) -> NotMade {
        NotMade::OutOfMemory
    }
}
