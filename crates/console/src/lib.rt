// The calls of the console: a deck is assembled and loaded, the machine runs, is asked and closed, and the sheet
// is given; and the promise that holds of any two rooms.
#![tactic(auto)]

mod both_rooms;
mod calls;
mod closed;
mod decks;
mod fault;
mod faults;
mod loaded;
mod room;
mod sheets;

pub use both_rooms::{calls_agree, two_rooms};
pub use closed::Closed;
pub use decks::assemble;
pub use fault::JobFault;
pub use loaded::Loaded;
pub use room::Room;
