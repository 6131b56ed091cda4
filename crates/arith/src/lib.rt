// The arithmetic of MIX on words: sums, products, quotients, shifts, comparison, and what ENT and ENN load.
#![tactic(auto)]

mod compares;
mod enters;
mod pair;
mod pairs;
mod products;
mod shift;
mod shifts;
mod sum;
mod sums;

pub use compares::compare;
pub use enters::{enter, enter_negative};
pub use pair::Pair;
pub use products::{multiply, whole_product};
pub use shift::Shift;
pub use sum::Sum;
pub use sums::{add, add_index, subtract, subtract_index, total};
