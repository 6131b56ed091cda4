ghost use Rattle.std.specs.Prelude.{◌≡◌};
ghost use Rattle.mixal.specs.Assembled.{deck_of};
ghost use Rattle.mixal.specs.Deck.{fresh};
ghost use Rattle.mixal.specs.Model.{model_of, Answers};

use crate::assembly::Assembly;
use crate::cause::{Cause, Refusal, Rejection};
use crate::deck::Deck;
use crate::progress::Progress;
use card::first_card;
use std::alloc::Global;
use symbols::Symbols;

// The deck of a text, or its rejection. What follows END is not looked at.
pub fn assemble(heap: Global, text: &[u8]) -> Result<Deck, Refusal>
    ensures { Answers result (deck_of text.now) }
{
    let mut assembly = start(heap);
    let mut rest = text;
    while let Some((text, next)) = first_card(rest) {
        if let Some(card) = assembly.step(text, next.is_empty())? {
            return assembly.end(heap, &card);
        }
        rest = next;
    }
    Err(Refusal::Rejected(Rejection {
        cause: Cause::NoEnd,
        card: assembly.progress.drafts.len(),
    }))
}

// Before the first card.
fn start(heap: Global) -> Assembly
    ensures { model_of result ≡ fresh }
{
    Assembly {
        progress: Progress {
            here: 0,
            symbols: Symbols::new(heap),
            drafts: Vec::new(heap),
        },
        awaited: Vec::new(heap),
    }
}
