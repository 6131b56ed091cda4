ghost use Rattle.std.specs.Prelude.{◌≡◌, true};
ghost use Rattle.table.specs.Keys.{name_before};
ghost use Rattle.table.specs.Pairs.{sorted};

use crate::meaning::Meaning;
use table::{Name, Table};

// The symbols of a deck, in the order of their names.
#[derive(Drop)]
pub struct Symbols {
    pub(crate) table: Table<Name, Meaning>,
    ghost ordered: { sorted name_before table ≡ true },
}
