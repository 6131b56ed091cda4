// The symbols of a deck by name, and what each means.
#![tactic(auto)]

mod meaning;
mod meanings;
mod symbols;

pub use meaning::Meaning;
pub use symbols::Symbols;
