ghost use Rattle.std.specs.Prelude.{◌≡◌, false, ◌^◌, ◌<◌, min, ◌+ℤ◌, ◌-ℤ◌};
ghost use Rattle.arith.specs.Sums.{sum_word, sum_over, sum_sign, sum_size, IndexSum};
ghost use Rattle.word.specs.Sign.{opposite};
ghost use Rattle.word.specs.Word.{value, negative, signed};

use crate::sum::Sum;
use word::{Index, Sign, Word};

// The register and v together, modulo 2^30; a zero sum keeps the register's sign.
pub fn add(register: Word, v: Word) -> Sum
    ensures word { result.word ≡ sum_word register v }
    ensures overflow { result.overflow ≡ sum_over register v }
    ensures number { result.overflow ≡ false → value result.word ≡ value register +ℤ value v }
    ensures zero { result.word.magnitude ≡ 0 → result.word.sign ≡ register.sign }
{
    let (m, n) = (u64::from(register.magnitude), u64::from(v.magnitude));
    let (sign, size) = total(register.sign, m, v.sign, n);
    Sum {
        word: Word::wrapping(sign, size),
        overflow: size >= 0x4000_0000,
    }
}

// The register less v.
pub fn subtract(register: Word, v: Word) -> Sum
    ensures word { result.word ≡ sum_word register (negative v) }
    ensures overflow { result.overflow ≡ sum_over register (negative v) }
    ensures number { result.overflow ≡ false → value result.word ≡ value register -ℤ value v }
    ensures zero { result.word.magnitude ≡ 0 → result.word.sign ≡ register.sign }
{
    add(register, v.negated())
}

// An index register and m together; none where the sum is beyond 4,095.
pub fn add_index(register: Index, m: Word) -> Option<Index>
    ensures { IndexSum register m.sign m.magnitude result }
{
    let sum = add(Word::from(register), m);
    if sum.overflow {
        None
    } else {
        Index::try_from(sum.word).ok()
    }
}

// An index register less m; none where the difference is beyond 4,095.
pub fn subtract_index(register: Index, m: Word) -> Option<Index>
    ensures { IndexSum register (opposite m.sign) m.magnitude result }
{
    add_index(register, m.negated())
}

// The sign and the magnitude of the sum of two numbers, of sign s and magnitude m and of t and n: at zero
// the first's sign; a magnitude past a u64 is held at the largest.
// A sign and a magnitude go as two, as in `Word::wrapping`: a struct would be made for one call and taken apart.
pub fn total(s: Sign, m: u64, t: Sign, n: u64) -> (Sign, u64)
    ensures sign { result.0 ≡ sum_sign s m t n }
    ensures size { result.1 ≡ min (sum_size s m t n) u64.MAX }
    ensures number { sum_size s m t n < 2 ^ 64 → signed result.0 result.1 ≡ signed s m +ℤ signed t n }
{
    if s == t {
        (s, m.saturating_add(n))
    } else if n <= m {
        (s, m - n)
    } else {
        (t, n - m)
    }
}
