// Two racks of units side by side.
#![tactic(auto)]

mod sides;
mod units;

pub use sides::SideBySide;
