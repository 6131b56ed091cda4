// Tests of card text, operation names, tables, values and lines. The expected values are worked by hand from the rules.
#![tactic(auto)]

#[cfg(test)]
mod addresses;
#[cfg(test)]
mod columns;
#[cfg(test)]
mod listings;
#[cfg(test)]
mod operations;
#[cfg(test)]
mod tables;
#[cfg(test)]
mod worked;
