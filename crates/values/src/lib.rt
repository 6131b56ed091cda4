// The values of expressions: numbers below 2^30 in magnitude, zero being plus, and the six operators on them.
// Each answers none where the result's magnitude is 2^30 or more, or the divisor is 0.
#![tactic(auto)]

ghost use Rattle.std.specs.Prelude.{◌≡◌, ◌*◌, ◌/◌, ◌^◌, ◌<◌, ◌≤◌, cond, ◌==◌, pos, ◌+ℤ◌, ◌-ℤ◌, ◌*ℤ◌, IfSome};
ghost use Rattle.arith.specs.Sums.{sum_sign, sum_size};
ghost use Rattle.values.specs.Values.{plain, fitted, sum_of, difference_of, times_of, over_of, fraction_of, colon_of};
ghost use Rattle.word.specs.Sign.{product};
ghost use Rattle.word.specs.Word.{value, signed};

use arith::{total, whole_product};
use word::{Sign, Word};

// A number as a value: zero is plus.
// It is no `From`: it goes from a word to a word, with no conversion between types.
pub fn number(word: Word) -> Word
    ensures word { result ≡ plain word.sign word.magnitude }
    ensures number { value result ≡ value word }
{
    plained(word.sign, u64::from(word.magnitude))
}

// The value of a sign and a magnitude; zero is plus, and 2^30 or more is none.
pub fn fitted(sign: Sign, size: u64) -> Option<Word>
    ensures word { result ≡ fitted sign size }
    ensures number { IfSome result (λ w. value w ≡ signed sign size) }
{
    (size < 0x4000_0000).then(|| plained(sign, size))
}

// a + b
pub fn add(a: Word, b: Word) -> Option<Word>
    ensures word { result ≡ sum_of a b }
    ensures number { IfSome result (λ w. value w ≡ value a +ℤ value b) }
{
    sum(a, 1, b)
}

// a - b
pub fn subtract(a: Word, b: Word) -> Option<Word>
    ensures word { result ≡ difference_of a b }
    ensures number { IfSome result (λ w. value w ≡ value a -ℤ value b) }
{
    sum(a, 1, b.negated())
}

// a * b
pub fn multiply(a: Word, b: Word) -> Option<Word>
    ensures { result ≡ times_of a b }
{
    fitted(a.sign.times(b.sign), whole_product(a, b))
}

// a / b, cut toward zero
pub fn divide(a: Word, b: Word) -> Option<Word>
    ensures { result ≡ over_of a b }
{
    quotient(a, 1, b)
}

// a // b: a times 2^30 by b, cut toward zero
pub fn fraction(a: Word, b: Word) -> Option<Word>
    ensures { result ≡ fraction_of a b }
{
    quotient(a, 0x4000_0000, b)
}

// a : b, that is 8 a + b
pub fn colon(a: Word, b: Word) -> Option<Word>
    ensures word { result ≡ colon_of a b }
    ensures number { IfSome result (λ w. value w ≡ (pos 8 *ℤ value a) +ℤ value b) }
{
    sum(a, 8, b)
}

// factor * a + b
fn sum(a: Word, factor: u64, b: Word) -> Option<Word>
    requires { factor ≤ 8 }
    ensures word { result ≡ fitted (sum_sign a.sign (factor * a.magnitude) b.sign b.magnitude) (sum_size a.sign (factor * a.magnitude) b.sign b.magnitude) }
    ensures number { IfSome result (λ w. value w ≡ (pos factor *ℤ value a) +ℤ value b) }
{
    let size = factor * u64::from(a.magnitude);
    let (sign, size) = total(a.sign, size, b.sign, u64::from(b.magnitude));
    fitted(sign, size)
}

// a * factor / b, cut toward zero; none where b is 0
fn quotient(a: Word, factor: u64, b: Word) -> Option<Word>
    requires { factor ≤ 2 ^ 30 }
    ensures { result ≡ cond (b.magnitude == 0) None (fitted (product a.sign b.sign) (a.magnitude * factor / b.magnitude)) }
{
    let dividend = u64::from(a.magnitude) * factor;
    let size = dividend.checked_div(u64::from(b.magnitude))?;
    fitted(a.sign.times(b.sign), size)
}

// The word of a sign and a magnitude; zero is plus.
fn plained(sign: Sign, size: u64) -> Word
    ensures word { result ≡ plain sign size }
    ensures number { size < 2 ^ 30 → value result ≡ signed sign size }
{
    let sign = if size == 0 { Sign::Plus } else { sign };
    Word::wrapping(sign, size)
}
