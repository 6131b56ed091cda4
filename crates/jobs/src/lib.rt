// What mixjob prints of a deck and its data cards.
#![tactic(auto)]

mod faults;
mod outcomes;
mod reports;

pub use outcomes::no_sheet;
pub use reports::{deck_text, reject_line, report};
