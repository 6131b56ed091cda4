// The operation names of MIXAL, what they stand for, and the times of the operations.
#![tactic(auto)]

mod kinds;
mod lookup;
mod table;
mod times;

pub use kinds::{Instruction, Operation};
pub use lookup::operation;
