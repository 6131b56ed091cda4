// W-values: pieces stored one after the other into a word.
#![tactic(auto)]

mod pieces;

pub use pieces::{is_w_value, part_readable, part_undefined, w_undefined, w_value};
