// The listing of a deck and the lines of its symbols, as text.
#![tactic(auto)]

mod buffers;
mod refusal;
mod refusals;
mod texts;

pub use buffers::{listing, symbol_lines};
pub use refusal::TextRefusal;
pub use texts::{listing_text, symbol_lines_text};
