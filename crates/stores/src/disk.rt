ghost use Rattle.std.specs.Prelude.{◌≤◌, vec_len};

use crate::block::Block;
use rack::Ring;

// A disk, which is always full: its blocks, none where one is damaged; its ring; and the time of its
// transfers.
#[derive(Drop)]
pub struct Disk {
    pub blocks: Vec<Option<Block>>,
    pub ring: Ring,
    pub time: u16,
    ghost small: { vec_len blocks ≤ 1000 },
    ghost timed: { time ≤ 65535 },
}
