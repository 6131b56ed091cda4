ghost use Rattle.std.specs.Prelude.{◌≡◌};
ghost use Rattle.instructions.specs.Instructions.{a_readable, is_address, future_of, a_undefined, address_undefined, as_address, a_word, up_to_bound, part_number, instruction_word, assembled_word};
ghost use Rattle.std.specs.Option.{option_map};
ghost use Rattle.symbols.specs.Symbols.{entries};

use eval::{Scope, undefined};
use names::Instruction;
use scan::{is_expression, name_codes, parts};
use symbols::Symbols;
use table::Name;
use word::{Sign, Word};
use wvalues::{part_readable, part_undefined};

// Whether a text is the ADDRESS of an instruction.
pub fn is_address(text: &[u8]) -> bool
    ensures { result ≡ is_address text.now }
{
    parts(text).is_some_and(|p| {
        is_a_part(p.a) && part_readable(p.index) && part_readable(p.field)
    })
}

// The symbol that an A-part is, where it is one symbol that is not defined.
pub fn future(symbols: &Symbols, a: &[u8]) -> Option<[u8; 10]>
    ensures { result ≡ future_of (entries symbols.now) a.now }
{
    name_codes(a).filter(|codes| symbols.word(Name { codes: *codes }).is_none())
}

// Whether an ADDRESS names a symbol that is not defined, but for an A-part that is such a symbol.
pub fn address_undefined(symbols: &Symbols, text: &[u8]) -> bool
    ensures { result ≡ address_undefined (entries symbols.now) text.now }
{
    parts(text).is_some_and(|p| {
        a_undefined(symbols, p.a)
            || part_undefined(symbols, p.index)
            || part_undefined(symbols, p.field)
    })
}

// The word of an ADDRESS with C and the F that it may leave out; none where a part is out of range.
pub fn instruction(scope: Scope<'_>, instruction: Instruction, text: &[u8]) -> Option<Word>
    ensures { result ≡ assembled_word (entries scope.entry.symbols.now) scope.entry.here instruction.c instruction.f text.now }
{
    let p = parts(text)?;
    let a = a_word(scope, p.a)?;
    let i = part_number(scope, 6, 0, p.index)?;
    let f = part_number(scope, 63, instruction.f, p.field)?;
    Some(joined(a, i, f, instruction.c))
}

// Whether an A-part is missing or an expression.
fn is_a_part(a: &[u8]) -> bool
    ensures { result ≡ a_readable a.now }
{
    a.is_empty() || is_expression(a)
}

// Whether an A-part names a symbol that is not defined, and is more than that symbol.
fn a_undefined(symbols: &Symbols, a: &[u8]) -> bool
    ensures { result ≡ a_undefined (entries symbols.now) a.now }
{
    future(symbols, a).is_none() && undefined(symbols, a)
}

// The value of an A-part: zero where it is missing or a future symbol.
fn a_word(scope: Scope<'_>, a: &[u8]) -> Option<Word>
    ensures { result ≡ a_word (entries scope.entry.symbols.now) scope.entry.here a.now }
{
    if a.is_empty() || future(scope.symbols, a).is_some() {
        return Some(Word::wrapping(Sign::Plus, 0));
    }
    as_address(scope.value(a)?)
}

// A value, unless its magnitude is above 4,095.
fn as_address(word: Word) -> Option<Word>
    ensures { result ≡ as_address word }
{
    (word.magnitude <= 4095).then_some(word)
}

// The value of a part, from 0 to a bound, or a default where the part is missing.
fn part_number(scope: Scope<'_>, bound: u8, missing: u8, part: Option<&[u8]>) -> Option<u8>
    ensures { result ≡ part_number (entries scope.entry.symbols.now) scope.entry.here bound missing (option_map (λ x. x.now) part.entry) }
{
    match part {
        Some(text) => up_to(bound, scope.value(text)?),
        None => Some(missing),
    }
}

// A value from 0 to a bound.
fn up_to(bound: u8, word: Word) -> Option<u8>
    ensures { result ≡ up_to_bound bound word }
{
    match word.sign {
        Sign::Plus => u8::try_from(word.magnitude).ok().filter(|n| *n <= bound),
        Sign::Minus => None,
    }
}

// The word of an address, an index, an F and a C.
fn joined(a: Word, i: u8, f: u8, c: u8) -> Word
    ensures { result ≡ instruction_word a i f c }
{
    let low = u64::from(i) * 4096 + u64::from(f) * 64 + u64::from(c);
    Word::wrapping(a.sign, u64::from(a.magnitude) * 262_144 + low)
}
