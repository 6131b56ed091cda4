// What the machine counts since it was loaded. A number of u64 for the time told would need a bound for each
// unit; a u128 needs none.
#[derive(Clone, Copy, PartialEq, Eq, Debug)]
pub struct Counts {
    // the clock, and what it is made of
    pub clock: u64,
    pub working_time: u64,
    pub waiting: u64,
    // the sum of the times that the rack told
    pub told: u128,
    // the steps that were granted, and those that were made
    pub granted: u64,
    pub working_steps: u64,
    pub waiting_steps: u64,
}
