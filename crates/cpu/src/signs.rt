ghost use Rattle.std.specs.Prelude.{◌≡◌};
ghost use Rattle.cpu.specs.Instructions.{is_negative, is_positive};

use word::{Sign, Word};

// Whether a number is below 0; -0 is not.
#[inline(always)]
pub(crate) fn is_negative(word: Word) -> bool
    ensures { result ≡ is_negative word }
{
    word.sign == Sign::Minus && word.magnitude != 0
}

// Whether a number is above 0.
#[inline(always)]
pub(crate) fn is_positive(word: Word) -> bool
    ensures { result ≡ is_positive word }
{
    word.sign == Sign::Plus && word.magnitude != 0
}
