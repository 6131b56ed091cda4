ghost use Rattle.std.specs.Prelude.{◌≡◌, ℕ, List, ◌++◌, IfOk, OnOk};
ghost use Rattle.std.specs.List.{flat_map};
ghost use Rattle.listing.specs.Listing.{line_text, listing_of, entry_text, symbol_lines_of};
ghost use Rattle.mixal.specs.Model.{assembled};

use lines::{list_line, symbol_text};
use mixal::{Deck, Line};
use std::alloc::{AllocError, Global};
use symbols::Meaning;
use table::Name;

// The listing: a line for each card, and for each word that END adds.
pub fn listing_text(heap: Global, deck: &Deck) -> Result<Vec<u8>, AllocError>
    ensures { IfOk result (λ v. v.items ≡ listing_of (assembled deck.now).lines) }
{
    joined(heap, deck.lines())
}

// A line for each symbol, by name in the order of the character codes.
pub fn symbol_lines_text(heap: Global, deck: &Deck) -> Result<Vec<u8>, AllocError>
    ensures { IfOk result (λ v. v.items ≡ symbol_lines_of (assembled deck.now).symbols) }
{
    joined(heap, deck.symbols())
}

// What has a text of its own.
trait Text {
    ghost text: { Self → List ℕ };

    // Adds the text to the end of another.
    fn add_to(&self, out: &mut Vec<u8>) -> Result<(), AllocError>
        ensures { OnOk result (out.new.items ≡ out.old.items ++ text self.now) };
}

// A line of the listing.
impl Text for Line {
    ghost text = { line_text };

    fn add_to(&self, out: &mut Vec<u8>) -> Result<(), AllocError> {
        list_line(out, self.at, &self.card)
    }
}

// A symbol has a line once it is defined.
impl Text for (Name, Meaning) {
    ghost text = { entry_text };

    fn add_to(&self, out: &mut Vec<u8>) -> Result<(), AllocError> {
        match self.1.word() {
            Some(word) => out.extend_from_slice(&symbol_text(self.0.codes, word)),
            None => Ok(()),
        }
    }
}

// The texts of the items, one after the other.
fn joined<T: Text>(heap: Global, items: &[T]) -> Result<Vec<u8>, AllocError>
    ensures { IfOk result (λ v. v.items ≡ flat_map T.text items.now) }
{
    let mut out = Vec::new(heap);
    for item in items {
        item.add_to(&mut out)?;
    }
    Ok(out)
}
