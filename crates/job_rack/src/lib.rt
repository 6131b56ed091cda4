// The units that a job is run with, and their times.
#![tactic(auto)]

mod settings;
mod timed;
mod times;
mod timing;
mod units;

pub use settings::{NotSet, Settings};
pub use timed::Timed;
pub use times::{JobTimes, Times};
pub use units::{JobRack, RoomRack, job_rack, room_rack};
