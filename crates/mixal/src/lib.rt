// The assembler: a deck of cards read one by one, up to END or to the first bad card.
#![tactic(auto)]

mod assembly;
mod cards;
mod cause;
mod causes;
mod deck;
mod decks;
mod draft;
mod ends;
mod line;
mod progress;
mod reading;
mod refusals;
mod sound_card;
mod sound_cards;
mod steps;

pub use cause::{Cause, Refusal, Rejection};
pub use deck::Deck;
pub use draft::{Draft, Made};
pub use line::Line;
pub use reading::assemble;
