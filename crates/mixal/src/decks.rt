ghost use Rattle.std.specs.Prelude.{◌≡◌, true};
ghost use Rattle.mixal.specs.Image.{image_of, last_at};
ghost use Rattle.mixal.specs.Model.{assembled};
ghost use Rattle.table.specs.Keys.{location_before, name_before};
ghost use Rattle.table.specs.Pairs.{sorted};

use crate::deck::Deck;
use crate::line::Line;
use symbols::Meaning;
use table::{Location, Name};
use word::Word;

impl Deck {
    // The location of the first instruction.
    pub fn start(&self) -> u16
        ensures { result ≡ (assembled self.now).start }
    {
        self.start
    }

    // How many cards the deck has, END among them.
    pub fn cards(&self) -> usize
        ensures { result ≡ (assembled self.now).cards }
    {
        self.cards
    }

    // The lines of the listing.
    pub fn lines(&self) -> &[Line]
        ensures { result.now ≡ (assembled self.now).lines }
    {
        self.lines.as_slice()
    }

    // The symbols with their meanings, in the order of their names.
    pub fn symbols(&self) -> &[(Name, Meaning)]
        ensures all { result.now ≡ (assembled self.now).symbols }
        ensures order { sorted name_before result.now ≡ true }
    {
        self.symbols.entries()
    }

    // The words, in the order of their locations.
    pub fn words(&self) -> &[(Location, Word)]
        ensures all { result.now ≡ image_of (assembled self.now).lines }
        ensures order { sorted location_before result.now ≡ true }
    {
        self.image.pairs()
    }

    // The word at a location: that of the last line for it, if there is one.
    #[tactic(auto, using(crate::proofs::Placed::image_last))]
    pub fn word(&self, location: u16) -> Option<Word>
        ensures { result ≡ last_at location (assembled self.now).lines }
    {
        self.image.get(&Location(location)).copied()
    }
}
