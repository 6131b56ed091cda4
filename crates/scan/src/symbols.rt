ghost use Rattle.std.specs.Prelude.{◌≡◌, ℕ, List, map, is_some, IfSome, Some};
ghost use Rattle.card.specs.Lines.{trimmed};
ghost use Rattle.card.specs.Table.{character_of};
ghost use Rattle.scan.specs.Symbols.{is_letter, is_digit, is_mark, all_marks, any_letter, is_symbol, name_of};

use card::codes_of;

// Whether a text is a symbol: 1 to 10 letters and digits, one a letter at least.
pub fn is_symbol(text: &[u8]) -> bool
    ensures { result ≡ is_symbol text.now }
{
    text.len() <= 10 && all_marks(text) && any_letter(text)
}

// The codes of a symbol's characters, and zeros after them; none where the text is no symbol.
pub fn name_codes(text: &[u8]) -> Option<[u8; 10]>
    ensures codes { result ≡ name_of text.now }
    ensures given { is_some result ≡ is_symbol text.now }
    ensures back { IfSome result (λ cs. trimmed (map character_of cs) ≡ text.now) }
    ensures alone { IfSome result (λ cs. (bs : List ℕ) → name_of bs ≡ Some cs → bs ≡ text.now) }
{
    if is_symbol(text) {
        codes_of(text)
    } else {
        None
    }
}

// Whether a byte is a letter.
pub(crate) fn is_letter(b: u8) -> bool
    ensures { result ≡ is_letter b }
{
    b.is_ascii_uppercase()
}

// Whether a byte is a digit.
pub(crate) fn is_digit(b: u8) -> bool
    ensures { result ≡ is_digit b }
{
    b.is_ascii_digit()
}

// Whether a byte is a letter or a digit.
pub(crate) fn is_mark(b: u8) -> bool
    ensures { result ≡ is_mark b }
{
    is_letter(b) || is_digit(b)
}

// Whether all bytes are letters and digits.
fn all_marks(text: &[u8]) -> bool
    ensures { result ≡ all_marks text.now }
{
    text.iter().all(|b| is_mark(*b))
}

// Whether some byte is a letter.
fn any_letter(text: &[u8]) -> bool
    ensures { result ≡ any_letter text.now }
{
    text.iter().any(|b| is_letter(*b))
}
