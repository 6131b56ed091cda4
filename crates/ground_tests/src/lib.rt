// Tests of words, arithmetic and cards at their corners. The expected values are worked by hand from the rules.
#![tactic(auto)]

#[cfg(test)]
mod cards;
#[cfg(test)]
mod fields;
#[cfg(test)]
mod products;
#[cfg(test)]
mod shifts;
#[cfg(test)]
mod sums;
#[cfg(test)]
mod words;
