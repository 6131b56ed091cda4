ghost use Rattle.std.specs.Prelude.{◌≡◌, List, ℕ, Some, OnOk};
ghost use Rattle.card.specs.Text.{card_of, padded};
ghost use Rattle.paper.specs.Copying.{Copied, next_block, last_text};

use rack::{Rack, Unit, UnitFault};
use word::{Sign, Word};

// The next card of the reader is read and punched again: what is punched has its text, but for blanks at the end.
pub fn copy_card<R: Rack>(rack: &mut R) -> Result<(), UnitFault>
    ensures units { Copied (R.holds rack.old) (R.holds rack.new) result }
    ensures text { OnOk result ((card : List ℕ) → next_block (R.holds rack.old 16) ≡ Some (card_of card)
        → last_text 17 (R.holds rack.new 17) ≡ padded card) }
{
    let mut words = [Word::wrapping(Sign::Plus, 0); 16];
    rack.take(Unit { number: 16 }, 0, &mut words)?;
    rack.put(Unit { number: 17 }, 0, &words)
}
