ghost use Rattle.std.specs.Prelude.{◌≡◌, ◌%◌, ◌^◌, true, pos, ◌-ℤ◌, IfSome, Decides};
ghost use Rattle.word.specs.Bytes.{are_bytes, packed, unpacked};
ghost use Rattle.word.specs.Sign.{opposite};
ghost use Rattle.word.specs.Word.{word_of, made_from, word_from, bytes_of, value, negative};

use crate::sign::Sign;
use crate::word::Word;

impl Word {
    // The word of a sign and the part of a number below 2^30.
    #[tactic(auto, using(crate::proofs::Same::five_rest), unfolding(crate::specs::Word::word_of))]
    pub fn wrapping(sign: Sign, number: u64) -> Word
        ensures word { result ≡ word_of sign number }
        ensures sign { result.sign ≡ sign }
        ensures magnitude { result.magnitude ≡ number % 2 ^ 30 }
        ensures bytes { bytes_of result ≡ unpacked 5 number }
    {
        Word {
            sign,
            magnitude: (number % 0x4000_0000) as u32,
        }
    }

    // The word of a sign and five bytes, byte 1 first; none where a byte is above 63.
    #[tactic(auto, using(crate::proofs::Bytes::unpacked_at))]
    pub fn from_bytes(sign: Sign, bytes: [u8; 5]) -> Option<Word>
        ensures word { result ≡ made_from sign bytes }
        ensures back { IfSome result (λ w. bytes_of w ≡ bytes) }
    {
        are_bytes(&bytes).then(|| Word::wrapping(sign, pack(bytes)))
    }

    // The five bytes, byte 1 first. No `From`: the sign is left out.
    #[tactic(auto, using(crate::proofs::Same::five_written, crate::proofs::Same::written_back))]
    pub fn to_bytes(self) -> [u8; 5]
        ensures bytes { result ≡ bytes_of self }
        ensures back { word_from self.sign result ≡ self }
    {
        let m = self.magnitude;
        [
            (m / 0x100_0000 % 64) as u8,
            (m / 0x4_0000 % 64) as u8,
            (m / 0x1000 % 64) as u8,
            (m / 64 % 64) as u8,
            (m % 64) as u8,
        ]
    }

    // The word with its sign turned.
    pub fn negated(self) -> Word
        ensures word { result ≡ negative self }
        ensures sign { result.sign ≡ opposite self.sign }
        ensures magnitude { result.magnitude ≡ self.magnitude }
        ensures number { value result ≡ pos 0 -ℤ value self }
    {
        Word::wrapping(self.sign.turned(), u64::from(self.magnitude))
    }

    // Whether two words are one number: +0 and -0 are.
    pub fn same_number(self, other: Word) -> bool
        ensures { Decides result (value self ≡ value other) }
    {
        self.magnitude == other.magnitude && (self.magnitude == 0 || self.sign == other.sign)
    }
}

// Whether each is a byte of 0 to 63.
fn are_bytes(bytes: &[u8]) -> bool
    ensures { result ≡ are_bytes bytes.now }
{
    bytes.iter().all(|b| *b < 64)
}

// The number that five bytes write.
#[tactic(auto, using(crate::proofs::Bytes::packed_by_five))]
fn pack(bytes: [u8; 5]) -> u64
    ensures { result ≡ packed bytes }
{
    let [b1, b2, b3, b4, b5] = bytes;
    let high = u64::from(b1) * 0x100_0000 + u64::from(b2) * 0x4_0000;
    high + u64::from(b3) * 0x1000 + u64::from(b4) * 64 + u64::from(b5)
}
