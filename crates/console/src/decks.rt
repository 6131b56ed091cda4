ghost use Rattle.std.specs.Prelude.{◌≡◌};
ghost use Rattle.console.specs.Calls.{Assembles};
ghost use Rattle.deck_laws.specs.Lawful.{Lawful};
ghost use Rattle.mixal.specs.Assembled.{deck_of};

use crate::fault::JobFault;
use mixal::Deck;
use std::alloc::Global;

// The deck of a text, or why there is none. What follows END is not looked at.
pub fn assemble(heap: Global, text: &[u8]) -> Result<Deck, JobFault>
    ensures answer { Assembles (deck_of text.now) result }
    ensures laws { Lawful text.now result }
{
    Ok(deck_laws::assemble(heap, text)?)
}
