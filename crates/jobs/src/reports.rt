ghost use Rattle.std.specs.Prelude.{◌≡◌, IfOk};
ghost use Rattle.card.specs.Lines.{cards_of};
ghost use Rattle.jobs.specs.Jobs.{deck_text, job_text, printed, reject_line};
ghost use Rattle.mixal.specs.Model.{assembled};

use crate::outcomes::outcome_text;
use console::{JobFault, Loaded, assemble};
use job_rack::job_rack;
use listing::{listing_text, symbol_lines_text};
use mixal::{Deck, Rejection};
use paper::first_cards;
use std::alloc::{AllocError, Global};

// The deck at the front of the input is listed and run with the data cards after it, or only its rejection told.
pub fn report(heap: Global, input: &[u8]) -> Result<Vec<u8>, AllocError>
    ensures { IfOk result (λ v. v.items ≡ printed input.now) }
{
    match assemble(heap, input) {
        Ok(deck) => {
            let (_, cards) = first_cards(input, deck.cards());
            job_text(heap, deck, cards)
        }
        Err(JobFault::Rejected(rejection)) => reject_line(heap, rejection),
        // Nothing else is wanting of a deck but memory.
        Err(_) => Err(AllocError),
    }
}

// The listing, the lines of the symbols, and what comes of the run.
fn job_text(heap: Global, deck: Deck, cards: &[u8]) -> Result<Vec<u8>, AllocError>
    ensures { IfOk result (λ v. v.items ≡ job_text (assembled deck) (cards_of cards.now)) }
{
    let mut out = deck_text(heap, &deck)?;
    let rack = job_rack(heap, cards)?;
    let outcome = outcome_text(heap, Loaded::load(deck, rack))?;
    out.extend_from_slice(&outcome)?;
    Ok(out)
}

// The listing, and the lines of the symbols after it.
pub fn deck_text(heap: Global, deck: &Deck) -> Result<Vec<u8>, AllocError>
    ensures { IfOk result (λ v. v.items ≡ deck_text (assembled deck.now)) }
{
    let mut out = listing_text(heap, deck)?;
    let symbols = symbol_lines_text(heap, deck)?;
    out.extend_from_slice(&symbols)?;
    Ok(out)
}

// The number of a rejection and its card.
pub fn reject_line(heap: Global, rejection: Rejection) -> Result<Vec<u8>, AllocError>
    ensures { IfOk result (λ v. v.items ≡ reject_line rejection) }
{
    let number = rejection.cause.number();
    let card = rejection.card;
    let line = format!(in heap; "REJECT {number} {card}\n")?;
    Ok(line.into_bytes())
}
