ghost use Rattle.std.specs.Prelude.{◌≡◌, ◌≤◌, length, drop};
ghost use Rattle.card.specs.Lines.{cards_of};

// The cards that lie in a reader: their text, and the text of those not read yet.
#[derive(Clone, Copy)]
pub(crate) struct Cards<'t> {
    pub(crate) text: &'t [u8],
    pub(crate) rest: &'t [u8],
    pub(crate) capacity: u16,
    pub(crate) blocks: u16,
    pub(crate) position: u16,
    ghost counted: { length (cards_of text.now) ≡ blocks },
    ghost room: { blocks ≤ capacity },
    ghost small: { capacity ≤ 1000 },
    ghost reached: { position ≤ blocks },
    ghost ahead: { cards_of rest.now ≡ drop position (cards_of text.now) },
}
