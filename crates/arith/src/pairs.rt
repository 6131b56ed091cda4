ghost use Rattle.std.specs.Prelude.{◌≡◌, ◌^◌, ◌<◌};
ghost use Rattle.arith.specs.Pairs.{joint, ten_bytes, pair_of};
ghost use Rattle.word.specs.Bytes.{unpacked};

use crate::pair::Pair;
use word::{Sign, Word};

impl Pair {
    // A and X with the signs given, for a number below 2^60.
    #[tactic(auto, using(crate::proofs::Tens::halves))]
    pub(crate) fn split(a: Sign, x: Sign, number: u64) -> Pair
        ensures pair { result ≡ pair_of a x number }
        ensures sign_a { result.a.sign ≡ a }
        ensures sign_x { result.x.sign ≡ x }
        ensures bytes { ten_bytes result ≡ unpacked 10 number }
        ensures whole { number < 64 ^ 10 → joint result ≡ number }
    {
        Pair {
            a: Word::wrapping(a, number / 0x4000_0000),
            x: Word::wrapping(x, number),
        }
    }

    // The magnitude of AX.
    #[tactic(auto, using(crate::proofs::Tens::tens))]
    pub(crate) fn joint(self) -> u64
        ensures value { result ≡ joint self }
        ensures bytes { unpacked 10 result ≡ ten_bytes self }
        ensures bound { result < 64 ^ 10 }
    {
        u64::from(self.a.magnitude) * 0x4000_0000 + u64::from(self.x.magnitude)
    }
}
