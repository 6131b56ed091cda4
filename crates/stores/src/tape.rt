ghost use Rattle.std.specs.Prelude.{◌≤◌, vec_len, vec_capacity};

use crate::block::Block;
use rack::Ring;

// A tape: its blocks, none where one is damaged; the blocks that it has room for; the position at
// which it stands; its ring; and the time of its transfers.
#[derive(Drop)]
pub struct Tape {
    pub blocks: Vec<Option<Block>>,
    pub capacity: u16,
    pub position: u16,
    pub ring: Ring,
    pub time: u16,
    ghost small: { capacity ≤ 1000 },
    ghost count: { vec_len blocks ≤ capacity },
    ghost room: { capacity ≤ vec_capacity blocks },
    ghost within: { position ≤ vec_len blocks },
    ghost timed: { time ≤ 65535 },
}
