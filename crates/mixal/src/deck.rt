ghost use Rattle.std.specs.Prelude.{◌≡◌};
ghost use Rattle.mixal.specs.Image.{image_of};

use crate::line::Line;
use symbols::Symbols;
use table::{Location, Table};
use word::Word;

// A deck assembled: its symbols, the lines of its listing, its words by location, where it starts,
// and how many cards it has.
#[derive(Drop)]
pub struct Deck {
    pub(crate) symbols: Symbols,
    pub(crate) lines: Vec<Line>,
    pub(crate) image: Table<Location, Word>,
    pub(crate) start: u16,
    pub(crate) cards: usize,
    ghost words: { image ≡ image_of lines.items },
}
