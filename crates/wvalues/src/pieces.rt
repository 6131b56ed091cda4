ghost use Rattle.std.specs.Prelude.{◌≡◌, true};
ghost use Rattle.std.specs.Option.{option_map};
ghost use Rattle.symbols.specs.Symbols.{entries};
ghost use Rattle.wvalues.specs.Pieces.{bounds_of, field_bounds, stored_piece, w_value_of, brackets_readable, piece_readable, is_w_value, brackets_undefined, piece_undefined, w_undefined_in};

use eval::{Scope, undefined};
use scan::{Piece, first_piece, is_expression};
use symbols::Symbols;
use word::{Field, Sign, Word};

// Three walks over pieces, each a loop that ends otherwise: an iterator over pieces would have to yield that the text fails.

// The word of a W-value; none where a value is out of range, a field is no field,
// a symbol is not defined or the text is no W-value.
pub fn w_value(scope: Scope<'_>, text: &[u8]) -> Option<Word>
    ensures { result ≡ w_value_of (entries scope.entry.symbols.now) scope.entry.here text.now }
{
    let mut word = Word::wrapping(Sign::Plus, 0);
    let mut rest = text;
    loop {
        let piece = first_piece(rest)?;
        word = store(scope, word, piece)?;
        let Some(others) = piece.rest else {
            return Some(word);
        };
        rest = others;
    }
}

// Whether a text is a W-value.
pub fn is_w_value(text: &[u8]) -> bool
    ensures { result ≡ is_w_value text.now }
{
    let mut rest = text;
    loop {
        let Some(piece) = first_piece(rest) else {
            return false;
        };
        if !piece_readable(piece) {
            return false;
        }
        let Some(others) = piece.rest else {
            return true;
        };
        rest = others;
    }
}

// Whether a W-value names a symbol that is not defined.
#[tactic(auto, using(crate::proofs::Steps::undefined_more))]
pub fn w_undefined(symbols: &Symbols, text: &[u8]) -> bool
    ensures { is_w_value text.now ≡ true → result ≡ w_undefined_in (entries symbols.now) text.now }
{
    let mut rest = text;
    loop {
        let Some(piece) = first_piece(rest) else {
            return false;
        };
        if piece_undefined(symbols, piece) {
            return true;
        }
        let Some(others) = piece.rest else {
            return false;
        };
        rest = others;
    }
}

// Whether a part that may be missing is an expression.
pub fn part_readable(part: Option<&[u8]>) -> bool
    ensures { result ≡ brackets_readable (option_map (λ x. x.now) part.entry) }
{
    part.is_none_or(|text| is_expression(text))
}

// Whether a part that may be missing names a symbol that is not defined.
pub fn part_undefined(symbols: &Symbols, part: Option<&[u8]>) -> bool
    ensures { result ≡ brackets_undefined (entries symbols.now) (option_map (λ x. x.now) part.entry) }
{
    part.is_some_and(|text| undefined(symbols, text))
}

// Whether a piece and its brackets are expressions.
fn piece_readable(piece: Piece<'_>) -> bool
    ensures { result ≡ piece_readable (piece.entry.value.now, option_map (λ x. x.now) piece.entry.field) }
{
    is_expression(piece.value) && part_readable(piece.field)
}

// Whether a piece or its brackets name a symbol that is not defined.
fn piece_undefined(symbols: &Symbols, piece: Piece<'_>) -> bool
    ensures { result ≡ piece_undefined (entries symbols.now) (piece.entry.value.now, option_map (λ x. x.now) piece.entry.field) }
{
    undefined(symbols, piece.value) || part_undefined(symbols, piece.field)
}

// One piece stored into a word.
fn store(scope: Scope<'_>, word: Word, piece: Piece<'_>) -> Option<Word>
    ensures { result ≡ stored_piece (entries scope.entry.symbols.now) scope.entry.here word (piece.entry.value.now, option_map (λ x. x.now) piece.entry.field) }
{
    let v = scope.value(piece.value)?;
    let field = field(scope, piece.field)?;
    Some(word.with_field(field, v))
}

// The field that brackets name; the whole word where there are none.
fn field(scope: Scope<'_>, brackets: Option<&[u8]>) -> Option<Field>
    ensures { option_map (λ f. (f.left, f.right)) result ≡ field_bounds (entries scope.entry.symbols.now) scope.entry.here (option_map (λ x. x.now) brackets.entry) }
{
    match brackets {
        Some(text) => named(scope.value(text)?),
        None => Some(Field { left: 0, right: 5 }),
    }
}

// The field of a value that is a field's code.
fn named(code: Word) -> Option<Field>
    ensures { option_map (λ f. (f.left, f.right)) result ≡ bounds_of code }
{
    match code.sign {
        Sign::Plus => Field::try_from(u8::try_from(code.magnitude).ok()?).ok(),
        Sign::Minus => None,
    }
}
