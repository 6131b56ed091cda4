// What mixrooms prints: what comes of a deck in two rooms, and where the two differ.
#![tactic(auto)]

mod arguments;
mod comparing;
mod outcomes;
mod places;
mod reports;

pub use arguments::{BadArgument, Wrong, read_times};
pub use comparing::differences;
pub use reports::report;
