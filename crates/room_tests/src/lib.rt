// Tests of what is printed of decks in two rooms, and of the words that set times. The expected values are worked by
// hand from the rules.
#![tactic(auto)]

#[cfg(test)]
mod arguments;
#[cfg(test)]
mod decks;
