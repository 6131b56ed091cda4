// Tests of card reader, punch and printer at their corners. The expected values are worked by hand from the rules.
#![tactic(auto)]

#[cfg(test)]
mod copies;
#[cfg(test)]
mod fronts;
#[cfg(test)]
mod readers;
#[cfg(test)]
mod trays;
#[cfg(test)]
mod units;
