// Worked examples: each is run by the code and proved to come out as the table has it.
#![tactic(auto)]

mod examples;
mod outcomes;

pub use examples::worked;
pub use outcomes::Worked;
