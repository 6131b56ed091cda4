// Tests of racks at their corners. The expected values are worked by hand from the rules.
#![tactic(auto)]

#[cfg(test)]
mod disks;
#[cfg(test)]
mod made;
#[cfg(test)]
mod requests;
#[cfg(test)]
mod sides;
#[cfg(test)]
mod tapes;
#[cfg(test)]
mod units;
