ghost use Rattle.std.specs.Prelude.{◌≡◌, ◌-◌, ◌^◌, ◌<◌, ◌≤◌, IfSome};
ghost use Rattle.arith.specs.Pairs.{ten_bytes, pair_of};
ghost use Rattle.arith.specs.Shifts.{shifted_left, shifted_right, turned, shifted_by, moving, moved, undoing};
ghost use Rattle.word.specs.Bytes.{packed, unpacked};
ghost use Rattle.word.specs.Word.{word_of, bytes_of};

use crate::pair::Pair;
use crate::shift::Shift;
use word::{Word, power};

impl Pair {
    // A and X with their bytes moved by `count`: SLA and SRA move those of A, and X stays; the others
    // move all ten. Both signs stay. SLC and SRC undo each other.
    #[tactic(auto, using(crate::proofs::Moves::turned_twice))]
    pub fn shifted(self, shift: Shift, count: u32) -> Pair
        ensures pair { result ≡ shifted_by shift count self }
        ensures bytes { moving shift result ≡ moved shift count (moving shift self) }
        ensures sign_a { result.a.sign ≡ self.a.sign }
        ensures sign_x { result.x.sign ≡ self.x.sign }
        ensures undone { IfSome (undoing shift) (λ back. moved back count (moving back result) ≡ moving back self) }
    {
        // A match: the six kinds are a closed set, and each has a definition of its own.
        match shift {
            Shift::Sla => self.with_a(left(u64::from(self.a.magnitude), 5, count)),
            Shift::Sra => self.with_a(right(u64::from(self.a.magnitude), 5, count)),
            Shift::Slax => self.with_both(left(self.joint(), 10, count)),
            Shift::Srax => self.with_both(right(self.joint(), 10, count)),
            Shift::Slc => self.with_both(around(self.joint(), count % 10)),
            Shift::Src => self.with_both(around(self.joint(), 10 - count % 10)),
        }
    }

    // The bytes of A replaced by those of a number; its sign and X stay.
    fn with_a(self, number: u64) -> Pair
        ensures pair { result ≡ record self { a = word_of self.a.sign number } }
        ensures sign { result.a.sign ≡ self.a.sign }
        ensures bytes { bytes_of result.a ≡ unpacked 5 number }
    {
        Pair {
            a: Word::wrapping(self.a.sign, number),
            ..self
        }
    }

    // All ten bytes replaced by those of a number; both signs stay.
    fn with_both(self, number: u64) -> Pair
        ensures pair { result ≡ pair_of self.a.sign self.x.sign number }
        ensures sign_a { result.a.sign ≡ self.a.sign }
        ensures sign_x { result.x.sign ≡ self.x.sign }
        ensures bytes { ten_bytes result ≡ unpacked 10 number }
    {
        Pair::split(self.a.sign, self.x.sign, number)
    }
}

// The number of `length` bytes moved left by `count`.
#[tactic(auto, using(crate::proofs::Moves::left_number, crate::proofs::Moves::left_fits, crate::proofs::Moves::left_again))]
fn left(number: u64, length: u32, count: u32) -> u64
    requires short { length ≤ 10 }
    requires small { number < 64 ^ length }
    ensures value { result ≡ packed (shifted_left count (unpacked length number)) }
    ensures bytes { unpacked length result ≡ shifted_left count (unpacked length number) }
{
    let moved = count.min(length);
    number % power(length - moved) * power(moved)
}

// The number of `length` bytes moved right by `count`.
#[tactic(auto, using(crate::proofs::Moves::right_number, crate::proofs::Moves::right_again))]
fn right(number: u64, length: u32, count: u32) -> u64
    requires short { length ≤ 10 }
    requires small { number < 64 ^ length }
    ensures value { result ≡ packed (shifted_right count (unpacked length number)) }
    ensures bytes { unpacked length result ≡ shifted_right count (unpacked length number) }
{
    number / power(count.min(length))
}

// The number of ten bytes with the first `count` at the end.
#[tactic(auto, using(crate::proofs::Moves::turned_number, crate::proofs::Moves::turned_fits, crate::proofs::Moves::turned_again))]
fn around(number: u64, count: u32) -> u64
    requires small { number < 64 ^ 10 }
    requires within { count ≤ 10 }
    ensures value { result ≡ packed (turned count (unpacked 10 number)) }
    ensures bytes { unpacked 10 result ≡ turned count (unpacked 10 number) }
{
    let back = power(10 - count);
    number % back * power(count) + number / back
}
