ghost use Rattle.std.specs.Prelude.{◌≡◌, ◌≤◌, map, vec_len, vec_capacity};
ghost use Rattle.paper.specs.Tray.{shown};

use crate::device::Device;
use rack::Ring;

// The lines of text in a tray, which has memory for as many as its capacity.
#[derive(Drop)]
pub(crate) struct Lines {
    pub(crate) device: Device,
    pub(crate) text: Vec<[u8; 120]>,
    pub(crate) capacity: u16,
    pub(crate) ring: Ring,
    ghost small: { capacity ≤ 1000 },
    ghost count: { vec_len text ≤ capacity },
    ghost room: { capacity ≤ vec_capacity text },
    ghost whole: { map (shown device) text.items ≡ text.items },
}
