// The ADDRESS of an instruction, and the word that it makes.
#![tactic(auto)]

mod addresses;

pub use addresses::{address_undefined, future, instruction, is_address};
