// The machine: steps and runs.
#![tactic(auto)]

mod acts;
mod call;
mod clock;
mod counts;
mod issues;
mod j;
mod machine;
mod parts;
mod phase;
mod runs;
mod status;
mod step;
mod turn;
mod waits;

pub use call::Call;
pub use counts::Counts;
pub use j::J;
pub use machine::Machine;
pub use parts::Parts;
pub use phase::{Phase, RunRefusal};
pub use status::Status;
