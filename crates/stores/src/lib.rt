// Tapes and disks with their words in memory.
#![tactic(auto)]

mod block;
mod blocks;
mod contents;
mod disk;
mod disks;
mod makes;
mod place;
mod stores;
mod tape;
mod tapes;
mod units;

pub use block::Block;
pub use contents::{Contents, NotMade};
pub use stores::Stores;
