// The sheet of a machine that was closed, as text.
#![tactic(auto)]

mod blocks;
mod numbers;
mod sheet;
mod words;

pub use numbers::mark_line;
pub use sheet::{front_text, sheet_text};
