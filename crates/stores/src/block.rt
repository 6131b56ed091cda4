ghost use Rattle.std.specs.Prelude.{◌≡◌, length};

use word::Word;

// The words of a block of a tape or a disk.
#[derive(Clone, Copy, PartialEq, Eq, Debug)]
pub struct Block {
    pub words: [Word; 100],
    ghost long: { length words ≡ 100 },
}
