// The assembler, with the laws of its decks in the words of the subject.
#![tactic(auto)]

ghost use Rattle.deck_laws.specs.Lawful.{Lawful};
ghost use Rattle.mixal.specs.Assembled.{deck_of};
ghost use Rattle.mixal.specs.Model.{Answers};

use mixal::{Deck, Refusal};
use std::alloc::Global;

// The deck of a text, or its rejection. What follows END is not looked at.
pub fn assemble(heap: Global, text: &[u8]) -> Result<Deck, Refusal>
    ensures answer { Answers result (deck_of text.now) }
    ensures laws { Lawful text.now result }
{
    mixal::assemble(heap, text)
}
