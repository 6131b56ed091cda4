ghost use Rattle.std.specs.Prelude.{◌≡◌, ◌≤◌, ℕ};
ghost use Rattle.std.specs.Option.{option_map};
ghost use Rattle.rack.specs.Transfers.{After, received, take_from, put_to, shift_of};
ghost use Rattle.rack.specs.declared.request.Request.{Request};
ghost use Rattle.rack.specs.Units.{Holdings, SoundIf, kind_of, standing_of, text_of_unit, columns};

use crate::fault::UnitFault;
use crate::request::Request;
use crate::standing::Standing;
use crate::unit::Unit;
use word::Word;

// A rack of units, told by what its units hold. All is ruled but the times.
pub trait Rack {
    // What each unit holds.
    ghost holds: { Self → Holdings };

    // The time that is told for a request.
    ghost tells: { Self → Request → ℕ };

    // How a unit stands; none where it is absent.
    fn ask(&self, unit: Unit) -> Option<Standing>
        ensures { result ≡ option_map standing_of (holds self.now unit.number) };

    // The text of a block of the punch or the printer; blanks where there is none.
    fn text(&self, unit: Unit, block: u16) -> [u8; 120]
        ensures { result ≡ columns (text_of_unit unit.number (holds self.now unit.number) block) };

    // The time that a transfer will take. The rack may change by it, but nothing that it holds.
    fn time(&mut self, request: Request) -> u16
        ensures told { result ≡ tells self.old request }
        ensures same { holds self.new ≡ holds self.old };

    // Reads a block into the front of an area; of an area shorter than a block, the block's front.
    fn take(&mut self, unit: Unit, block: u16, area: &mut [Word]) -> Result<(), UnitFault>
        ensures units { After unit (take_from unit block (holds self.old unit.number)) (holds self.old) (holds self.new) result }
        ensures area { area.new ≡ received (take_from unit block (holds self.old unit.number)) area.old };

    // Writes a block from the front of an area; an area shorter than a block is followed by +0.
    fn put(&mut self, unit: Unit, block: u16, area: &[Word]) -> Result<(), UnitFault>
        ensures { After unit (put_to unit block area.now (holds self.old unit.number)) (holds self.old) (holds self.new) result };

    // Moves a tape by a number, or to its beginning by 0.
    fn shift(&mut self, unit: Unit, by: Word) -> Result<(), UnitFault>
        ensures { After unit (shift_of unit by (holds self.old unit.number)) (holds self.old) (holds self.new) result };

    // A time told fits what tells it.
    ghost bounded: { (r : Self) (q : Request) → tells r q ≤ 65535 };

    // Each unit is as the rules allow it.
    ghost sound: { (r : Self) (u : ℕ) → SoundIf (kind_of u) (holds r u) };
}
