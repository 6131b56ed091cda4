// Characters, words as text, and cards.
#![tactic(auto)]

mod cards;
mod lines;
mod table;
mod words;

pub use cards::{card_text, line_text, read_card, reproduce};
pub use lines::{first_card, trim, until};
pub use table::{character, code};
pub use words::{codes_of, spelled, text_of, word_of};
