ghost use Rattle.std.specs.Prelude.{◌≡◌, length};
ghost use Rattle.rack.specs.Transfers.{Leaves, read_next, write_next, if_ring, moved_to, at_position, shifted_to, received, block_in};
ghost use Rattle.rack.specs.Units.{standing_of};
ghost use Rattle.rack.specs.declared.kind.Kind.TheVariants.{Tape as tape_kind};
ghost use Rattle.stores.specs.Stores.{tape_holding};

use crate::block::Block;
use crate::blocks::{read, write};
use crate::tape::Tape;
use rack::{Ring, Standing, Unit, UnitFault, fill};
use word::{Sign, Word};

impl Tape {
    // How the tape stands.
    pub(crate) fn standing(&self) -> Standing
        ensures { result ≡ standing_of (tape_holding self.now) }
    {
        Standing {
            capacity: self.capacity,
            blocks: self.blocks.len() as u16,
            position: self.position,
            ring: self.ring,
        }
    }

    // Reads the next block, after which the position is one more.
    pub(crate) fn take(&mut self, unit: Unit, area: &mut [Word]) -> Result<(), UnitFault>
        ensures tape { Leaves (read_next unit (tape_holding self.old)) (tape_holding self.old) (tape_holding self.new) result }
        ensures area { area.new ≡ received (read_next unit (tape_holding self.old)) area.old }
        ensures time { self.new.time ≡ self.old.time }
    {
        fill(area, read(&self.blocks, self.position, unit)?);
        self.position += 1;
        Ok(())
    }

    // Writes the next block, or one more, after which the position is one more.
    pub(crate) fn put(&mut self, unit: Unit, area: &[Word]) -> Result<(), UnitFault>
        ensures tape { Leaves (if_ring unit self.old.ring (write_next unit (block_in area.now tape_kind) (tape_holding self.old))) (tape_holding self.old) (tape_holding self.new) result }
        ensures time { self.new.time ≡ self.old.time }
    {
        match self.ring {
            Ring::Out => Err(UnitFault::NotAllowed(unit)),
            Ring::In => {
                if self.position >= self.capacity {
                    return Err(UnitFault::NoBlock(unit, self.position));
                }
                write(&mut self.blocks, self.position, Block::of(area));
                self.position += 1;
                Ok(())
            }
        }
    }

    // Moves by a number, but not past an end; 0 moves to the beginning.
    pub(crate) fn shift(&mut self, by: Word)
        ensures tape { let h = tape_holding self.old in tape_holding self.new ≡ at_position (shifted_to by h.position (length h.blocks)) h }
        ensures time { self.new.time ≡ self.old.time }
    {
        let position = u32::from(self.position);
        let moved = match by.sign {
            _ if by.magnitude == 0 => 0,
            Sign::Plus => (position + by.magnitude).min(self.blocks.len() as u32),
            Sign::Minus => position.saturating_sub(by.magnitude),
        };
        self.position = moved as u16;
    }
}
