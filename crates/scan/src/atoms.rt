ghost use Rattle.std.specs.Prelude.{◌≡◌, ◌≤◌, length};
ghost use Rattle.std.specs.Option.{option_map};
ghost use Rattle.scan.specs.Atoms.{operator_of, sign_of, number_of, word_of, run_of, front_of, atom_of};

use crate::spans::{after, front};
use crate::symbols::{is_digit, is_mark, name_codes};
use crate::terms::{Atom, Operator};

// The operator at the front of a text, and what follows it.
pub(crate) fn operator(text: &[u8]) -> Option<(Operator, &[u8])>
    ensures { option_map (λ p. (p.0, p.1.now)) result ≡ operator_of text.now }
{
    match text {
        [b'+', rest @ ..] => Some((Operator::Plus, rest)),
        [b'-', rest @ ..] => Some((Operator::Minus, rest)),
        [b'*', rest @ ..] => Some((Operator::Times, rest)),
        [b'/', b'/', rest @ ..] => Some((Operator::Fraction, rest)),
        [b'/', rest @ ..] => Some((Operator::Divide, rest)),
        [b':', rest @ ..] => Some((Operator::Colon, rest)),
        _ => None,
    }
}

// The sign at the front of a text, which is plus where there is none, and what follows it.
pub(crate) fn leading_sign(text: &[u8]) -> (Operator, &[u8])
    ensures op { result.0 ≡ (sign_of text.now).0 }
    ensures rest { result.1.now ≡ (sign_of text.now).1 }
    ensures bound { length result.1.now ≤ length text.now }
{
    match text {
        [b'+', rest @ ..] => (Operator::Plus, rest),
        [b'-', rest @ ..] => (Operator::Minus, rest),
        _ => (Operator::Plus, text),
    }
}

// The atom at the front of a text, and what follows it.
pub(crate) fn atom(text: &[u8]) -> Option<(Atom, &[u8])>
    ensures { option_map (λ p. (p.0, p.1.now)) result ≡ atom_of text.now }
{
    match text {
        [b'*', rest @ ..] => Some((Atom::Here, rest)),
        [_, ..] => front_atom(text),
        [] => None,
    }
}

// The atom of the letters and digits at the front of a text, and what follows them.
fn front_atom(text: &[u8]) -> Option<(Atom, &[u8])>
    ensures { option_map (λ p. (p.0, p.1.now)) result ≡ front_of text.now }
{
    let n = run(text);
    let atom = word(front(text, n))?;
    Some((atom, after(text, n)))
}

// The atom that letters and digits write.
fn word(text: &[u8]) -> Option<Atom>
    ensures { result ≡ word_of text.now }
{
    number(text)
        .map(Atom::Number)
        .or_else(|| name_codes(text).map(Atom::Symbol))
}

// The number of 1 to 10 digits.
fn number(text: &[u8]) -> Option<u64>
    ensures { result ≡ number_of text.now }
{
    if text.is_empty() || text.len() > 10 {
        return None;
    }
    let mut sum = 0u64;
    for b in text {
        if !is_digit(*b) {
            return None;
        }
        sum = 10 * sum + u64::from(*b - b'0');
    }
    Some(sum)
}

// How many letters and digits stand at the front of a text.
fn run(text: &[u8]) -> usize
    ensures value { result ≡ run_of text.now }
    ensures bound { result ≤ length text.now }
{
    text.iter().position(|b| !is_mark(*b)).unwrap_or(text.len())
}
