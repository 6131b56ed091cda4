ghost use Rattle.std.specs.Prelude.{◌^◌, ◌<◌};

use crate::sign::Sign;

// A word: a sign and five bytes of 0 to 63, held as one magnitude of base 64, byte 1 the highest digit.
// +0 and -0 are two words and one number.
#[derive(Clone, Copy, PartialEq, Eq, Debug)]
pub struct Word {
    pub sign: Sign,
    pub magnitude: u32,
    ghost small: { magnitude < 2 ^ 30 },
}
