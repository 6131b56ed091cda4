ghost use Rattle.std.specs.Prelude.{◌≡◌, ◌≤◌, vec_capacity, IfOk, MatchResult};
ghost use Rattle.rack.specs.Units.{Sound};
ghost use Rattle.rack.specs.declared.kind.Kind.TheVariants.{Tape as tape_kind, Disk as disk_kind};
ghost use Rattle.stores.specs.Contents.{holding_in, Refuses};
ghost use Rattle.stores.specs.Stores.{tape_holding, disk_holding};

use crate::block::Block;
use crate::contents::{Contents, NotMade};
use crate::disk::Disk;
use crate::tape::Tape;
use std::alloc::{AllocError, Global};

impl Tape {
    // The tape of some contents.
    #[tactic(auto, using(crate::proofs::Made::tape_allowed))]
    pub(crate) fn new(heap: Global, contents: Contents<'_>) -> Result<Tape, NotMade>
        ensures { MatchResult result
            (λ t. (tape_holding t ≡ holding_in contents.entry) × (t.time ≡ contents.entry.time))
            (Refuses (Sound tape_kind (holding_in contents.entry))) }
    {
        let Contents {
            capacity,
            blocks,
            position,
            ring,
            time,
        } = contents;
        let count = blocks.len();
        if capacity > 1000 || count > usize::from(capacity) || usize::from(position) > count {
            return Err(NotMade::NotAllowed);
        }
        Ok(Tape {
            blocks: copy(heap, capacity, blocks)?,
            capacity,
            position,
            ring,
            time,
        })
    }
}

impl Disk {
    // The disk of some contents.
    #[tactic(auto, using(crate::proofs::Made::disk_allowed))]
    pub(crate) fn new(heap: Global, contents: Contents<'_>) -> Result<Disk, NotMade>
        ensures { MatchResult result
            (λ d. (disk_holding d ≡ holding_in contents.entry) × (d.time ≡ contents.entry.time))
            (Refuses (Sound disk_kind (holding_in contents.entry))) }
    {
        let Contents {
            capacity,
            blocks,
            position,
            ring,
            time,
        } = contents;
        if capacity > 1000 || blocks.len() != usize::from(capacity) || position != 0 {
            return Err(NotMade::NotAllowed);
        }
        Ok(Disk {
            blocks: copy(heap, capacity, blocks)?,
            ring,
            time,
        })
    }
}

// Blocks with room for as many as a unit may hold.
fn copy(
    heap: Global,
    capacity: u16,
    blocks: &[Option<Block>],
) -> Result<Vec<Option<Block>>, AllocError>
    ensures items { IfOk result (λ v. v.items ≡ blocks.now) }
    ensures room { IfOk result (λ v. capacity ≤ vec_capacity v) }
{
    let mut copy = Vec::with_capacity(heap, usize::from(capacity))?;
    copy.extend_from_slice(blocks)?;
    Ok(copy)
}
