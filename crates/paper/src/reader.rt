ghost use Rattle.std.specs.Prelude.{◌≤◌};

use crate::cards::Cards;

// A card reader, which views the text of its cards; absent where it has none.
#[derive(Clone, Copy)]
pub struct CardReader<'t> {
    pub(crate) cards: Option<Cards<'t>>,
    pub(crate) time: u16,
    ghost fits: { time ≤ 65535 },
}
