// Transfers in flight, and the watch over them.
#![tactic(auto)]

mod areas;
mod carrying;
mod due;
mod fault;
mod faults;
mod flight;
mod flights;
mod issue;
mod issuing;
mod keeping;
mod mark;
mod marks;
mod reading;
mod units;
mod watch;

pub use due::Broken;
pub use fault::{Fault, Rejected};
pub use flight::{Event, Flight, UnitState};
pub use flights::Flights;
pub use issue::Issue;
pub use mark::{Mark, MarkKind};
