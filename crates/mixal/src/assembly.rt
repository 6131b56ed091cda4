ghost use Rattle.std.specs.Prelude.{◌≤◌, vec_len};

use crate::progress::Progress;
use table::Name;

// A deck in assembly, its END not yet read: how far it is, and the names awaited in the order of their
// first appearance.
#[derive(Drop)]
pub(crate) struct Assembly {
    pub(crate) progress: Progress,
    pub(crate) awaited: Vec<Name>,
    ghost low: { progress.here ≤ 4000 },
    ghost few: { vec_len progress.drafts ≤ 600 },
    ghost named: { vec_len awaited ≤ vec_len progress.drafts },
}
