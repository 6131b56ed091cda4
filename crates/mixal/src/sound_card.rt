ghost use Rattle.std.specs.Prelude.{◌≡◌, true};
ghost use Rattle.card.specs.Text.{padded, sound};

use names::Operation;

// A card that is not damaged: its text, and its 80 columns, which are the text and blanks.
#[derive(Clone, Copy)]
pub(crate) struct SoundCard<'a> {
    pub(crate) text: &'a [u8],
    pub(crate) columns: [u8; 80],
    ghost coded: { sound text.now ≡ true },
    ghost whole: { columns ≡ padded text.now },
}

// A card that is no remark, with its operation.
#[derive(Clone, Copy)]
pub(crate) struct OperationCard<'a> {
    pub(crate) sound: SoundCard<'a>,
    pub(crate) operation: Operation,
}
