ghost use Rattle.std.specs.Prelude.{◌≡◌, ◌<ℤ◌};
ghost use Rattle.std.specs.Ordering.{MatchOrdering};
ghost use Rattle.word.specs.Word.{value};

use std::cmp::Ordering;
use word::{Sign, Word};

// Two words compared as numbers: +0 and -0 are equal. It is no `Ord` of words, since == tells these two apart.
pub fn compare(a: Word, b: Word) -> Ordering
    ensures { MatchOrdering result (value a <ℤ value b) (value a ≡ value b) (value b <ℤ value a) }
{
    match (a.sign, b.sign) {
        (Sign::Plus, Sign::Plus) => a.magnitude.cmp(&b.magnitude),
        (Sign::Minus, Sign::Minus) => b.magnitude.cmp(&a.magnitude),
        (Sign::Plus, Sign::Minus) => (a.magnitude + b.magnitude).cmp(&0),
        (Sign::Minus, Sign::Plus) => 0.cmp(&(a.magnitude + b.magnitude)),
    }
}
