// Calls that are made one by one: a chain of them in two rooms, with the promise for the sheets, and what is told of
// faults. The expected values are worked by hand from the rules.
#![tactic(auto)]

mod chains;
#[cfg(test)]
mod told;
#[cfg(test)]
mod two;

pub use chains::by_hand;
