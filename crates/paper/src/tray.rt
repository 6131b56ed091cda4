ghost use Rattle.std.specs.Prelude.{◌≤◌};

use crate::lines::Lines;

// The text tray of a card punch or a printer; absent where it has no lines.
#[derive(Drop)]
pub struct Tray {
    pub(crate) lines: Option<Lines>,
    pub(crate) time: u16,
    ghost fits: { time ≤ 65535 },
}
