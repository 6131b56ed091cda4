ghost use Rattle.std.specs.Prelude.{◌≡◌, ◌<◌, length, is_some, IfSome, None, MatchOption};
ghost use Rattle.std.specs.Option.{option_map};
ghost use Rattle.scan.specs.Atoms.{operator_of, atom_of};
ghost use Rattle.scan.specs.Terms.{with_atom, on_term, first_of, next_of, more_of, terms_of, Enough, Read};

use crate::atoms::{atom, leading_sign, operator};
use crate::terms::{Operator, Term};

// The first term of an expression, a sign or none and an atom, and the text of the others.
pub fn first_term(text: &[u8]) -> Option<(Term, &[u8])>
    ensures first { option_map (λ p. (p.0, p.1.now)) result ≡ first_of text.now }
    ensures terms { MatchOption result (terms_of text.now ≡ None) (λ p. Read (terms_of text.now) text.now p.0 p.1.now) }
{
    let (sign, rest) = leading_sign(text);
    term(sign, rest)
}

// A further term, an operator and an atom, and the text of the others.
#[tactic(auto, using(crate::proofs::Reading::enough))]
pub fn next_term(text: &[u8]) -> Option<(Term, &[u8])>
    ensures next { option_map (λ p. (p.0, p.1.now)) result ≡ next_of text.now }
    ensures terms { MatchOption result (0 < length text.now → more_of text.now ≡ None) (λ p. Read (more_of text.now) text.now p.0 p.1.now) }
    ensures enough { Enough }
{
    let (op, rest) = operator(text)?;
    term(op, rest)
}

// Whether a text is an expression.
pub fn is_expression(text: &[u8]) -> bool
    ensures { result ≡ is_some (terms_of text.now) }
{
    first_term(text).is_some_and(|(_, rest)| are_terms(rest))
}

// An operator with the atom after it, and what follows the atom.
fn term(op: Operator, text: &[u8]) -> Option<(Term, &[u8])>
    ensures value { option_map (λ p. (p.0, p.1.now)) result ≡ with_atom op (atom_of text.now) }
    ensures terms { MatchOption result (on_term more_of (with_atom op (atom_of text.now)) ≡ None) (λ p. Read (on_term more_of (with_atom op (atom_of text.now))) text.now p.0 p.1.now) }
{
    let (atom, rest) = atom(text)?;
    Some((Term { op, atom }, rest))
}

// Whether a text is nothing but further terms.
fn are_terms(text: &[u8]) -> bool
    ensures { result ≡ is_some (more_of text.now) }
{
    let mut rest = text;
    while !rest.is_empty() {
        let Some((_, next)) = next_term(rest) else {
            return false;
        };
        rest = next;
    }
    true
}
