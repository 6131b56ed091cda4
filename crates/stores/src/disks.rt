ghost use Rattle.std.specs.Prelude.{◌≡◌, ◌==◌, if◌then◌else◌, map, slice_get};
ghost use Rattle.rack.specs.Transfers.{Leaves, read_block, write_at, if_ring, received, block_in};
ghost use Rattle.rack.specs.Units.{standing_of};
ghost use Rattle.rack.specs.declared.kind.Kind.TheVariants.{Disk as disk_kind};
ghost use Rattle.stores.specs.Blocks.{words_in};
ghost use Rattle.stores.specs.Stores.{disk_holding};

use crate::block::Block;
use crate::blocks::{read, write};
use crate::disk::Disk;
use rack::{Ring, Standing, Unit, UnitFault, fill};
use word::Word;

impl Disk {
    // How the disk stands.
    pub(crate) fn standing(&self) -> Standing
        ensures { result ≡ standing_of (disk_holding self.now) }
    {
        let count = self.blocks.len() as u16;
        Standing {
            capacity: count,
            blocks: count,
            position: 0,
            ring: self.ring,
        }
    }

    // Reads a block.
    pub(crate) fn take(&self, unit: Unit, block: u16, area: &mut [Word]) -> Result<(), UnitFault>
        ensures disk { Leaves (read_block unit block (disk_holding self.now) (slice_get (map words_in self.now.blocks.items) block)) (disk_holding self.now) (disk_holding self.now) result }
        ensures area { area.new ≡ received (read_block unit block (disk_holding self.now) (slice_get (map words_in self.now.blocks.items) block)) area.old }
    {
        fill(area, read(&self.blocks, block, unit)?);
        Ok(())
    }

    // Writes a block in place of another.
    #[tactic(auto, using(crate::proofs::Written::written_in), unfolding(rack::specs::Transfers::block_in))]
    pub(crate) fn put(&mut self, unit: Unit, block: u16, area: &[Word]) -> Result<(), UnitFault>
        ensures disk { Leaves (if_ring unit self.old.ring (write_at unit block (block_in area.now disk_kind) (disk_holding self.old))) (disk_holding self.old) (disk_holding self.new) result }
        ensures time { self.new.time ≡ self.old.time }
    {
        match self.ring {
            Ring::Out => Err(UnitFault::NotAllowed(unit)),
            Ring::In => {
                if usize::from(block) >= self.blocks.len() {
                    return Err(UnitFault::NoBlock(unit, block));
                }
                write(&mut self.blocks, block, Block::of(area));
                Ok(())
            }
        }
    }

    // Moves by a number: only 0, which does nothing.
    pub(crate) fn shift(&self, unit: Unit, by: Word) -> Result<(), UnitFault>
        ensures { result ≡ (if by.magnitude == 0 then Ok tt else Err (UnitFault.NotAllowed unit)) }
    {
        if by.magnitude == 0 {
            Ok(())
        } else {
            Err(UnitFault::NotAllowed(unit))
        }
    }
}
