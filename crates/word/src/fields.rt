ghost use Rattle.std.specs.Prelude.{◌≡◌, ◌+◌, ◌-◌, ◌*◌, ◌==◌, ◌&&◌, true};
ghost use Rattle.word.specs.Bytes.{packed, unpacked};
ghost use Rattle.word.specs.Field.{before, width, is_field, Decodes, field_of, stored_in, read_bytes, stored_bytes, Stored};
ghost use Rattle.word.specs.Word.{bytes_of};

use crate::field::{Field, NoField};
use crate::powers::power;
use crate::sign::Sign;
use crate::word::Word;

impl TryFrom<u8> for Field {
    type Error = NoField;

    ghost try_from_gives = { Decodes };

    // The field of F = 8 L + R; an error where it is not so that L ≤ R ≤ 5.
    fn try_from(code: u8) -> Result<Field, NoField> {
        let left = code / 8;
        let right = code % 8;
        if left <= right && right <= 5 {
            Ok(Field { left, right })
        } else {
            Err(NoField)
        }
    }
}

impl From<Field> for u8 {
    ghost from_gives = { λ field code. code ≡ 8 * field.left + field.right };

    // F = 8 L + R.
    fn from(field: Field) -> u8
        ensures value { result ≡ 8 * field.left + field.right }
        ensures field { is_field result ≡ true }
    {
        8 * field.left + field.right
    }
}

impl Word {
    // The field's bytes at the right end, plus unless byte 0 is in the field.
    #[tactic(auto, using(crate::proofs::Cuts::read_back, crate::proofs::Wholes::whole_read, crate::proofs::Wholes::whole_bytes))]
    #[inline(always)]
    pub fn field(self, field: Field) -> Word
        ensures word { result ≡ field_of field self }
        ensures bytes { bytes_of result ≡ read_bytes field.left field.right (bytes_of self) }
    {
        if field.is_whole() {
            return self;
        }
        let sign = if field.left == 0 {
            self.sign
        } else {
            Sign::Plus
        };
        Word::wrapping(sign, cut(self, field))
    }

    // The word with the field filled from the register's right end, the sign only if byte 0 is in the field.
    #[tactic(auto, using(crate::proofs::Wholes::whole_stored, crate::proofs::Wholes::whole_law))]
    #[inline(always)]
    pub fn with_field(self, field: Field, register: Word) -> Word
        ensures word { result ≡ stored_in field register self }
        ensures bytes { Stored field.left field.right (bytes_of register) (bytes_of self) (bytes_of result) }
    {
        if field.is_whole() {
            return register;
        }
        let sign = if field.left == 0 {
            register.sign
        } else {
            self.sign
        };
        Word::wrapping(sign, splice(self, field, register))
    }
}

impl Field {
    // Whether it is the whole word, as in most instructions.
    #[inline(always)]
    fn is_whole(self) -> bool
        ensures { result ≡ (self.left == 0 && self.right == 5) }
    {
        self.left == 0 && self.right == 5
    }

    // How many bytes stand before the field, the sign not counted.
    fn before(self) -> u32
        ensures { result ≡ before self.left }
    {
        u32::from(self.left.saturating_sub(1))
    }

    // How many bytes it has, the sign not counted.
    fn width(self) -> u32
        ensures { result ≡ width self.left self.right }
    {
        u32::from(self.right) - self.before()
    }

    // How many bytes stand behind it.
    fn after(self) -> u32
        ensures { result ≡ 5 - self.right }
    {
        u32::from(5 - self.right)
    }
}

// The number of the field's bytes.
#[inline(never)]
fn cut(word: Word, field: Field) -> u64
    ensures { result ≡ packed (read_bytes field.left field.right (bytes_of word)) }
{
    u64::from(word.magnitude) / power(field.after()) % power(field.width())
}

// The number of the word's bytes with the register's right end in the field.
#[inline(never)]
fn splice(word: Word, field: Field, register: Word) -> u64
    ensures value { result ≡ packed (stored_bytes field.left field.right (bytes_of register) (bytes_of word)) }
    ensures bytes { Stored field.left field.right (bytes_of register) (bytes_of word) (unpacked 5 result) }
{
    let high = power(5 - field.before());
    let span = power(field.width());
    let low = power(field.after());
    let m = u64::from(word.magnitude);
    m / high * high + u64::from(register.magnitude) % span * low + m % low
}
