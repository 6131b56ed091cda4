ghost use Rattle.std.specs.Prelude.{◌≡◌, ℕ, List, IfOk};
ghost use Rattle.listing.specs.Listing.{listing_of, symbol_lines_of, Written};
ghost use Rattle.mixal.specs.Model.{assembled};

use crate::refusal::TextRefusal;
use crate::texts::{listing_text, symbol_lines_text};
use lines::copy_out;
use mixal::Deck;
use std::alloc::{AllocError, Global};

// The listing is copied to the buffer's front, and its length is told.
pub fn listing(heap: Global, deck: &Deck, buffer: &mut [u8]) -> Result<usize, TextRefusal>
    ensures { Written (listing_of (assembled deck.now).lines) buffer.old buffer.new result }
{
    write_text(listing_text(heap, deck), buffer)
}

// The lines of the symbols are copied to the buffer's front, and their length is told.
pub fn symbol_lines(heap: Global, deck: &Deck, buffer: &mut [u8]) -> Result<usize, TextRefusal>
    ensures { Written (symbol_lines_of (assembled deck.now).symbols) buffer.old buffer.new result }
{
    write_text(symbol_lines_text(heap, deck), buffer)
}

// A text, where there was memory for it, is copied to the buffer's front.
fn write_text(text: Result<Vec<u8>, AllocError>, buffer: &mut [u8]) -> Result<usize, TextRefusal>
    ensures { (xs : List ℕ) → IfOk text (λ v. v.items ≡ xs) → Written xs buffer.old buffer.new result }
{
    Ok(copy_out(&text?, buffer)?)
}
