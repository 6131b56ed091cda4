ghost use Rattle.std.specs.Prelude.{◌≡◌, ◌<◌, ◌++◌, length, IfSome, Some, None, MatchOption};
ghost use Rattle.std.specs.Option.{option_map};
ghost use Rattle.card.specs.Text.{both};
ghost use Rattle.scan.specs.Cuts.{before, onward};
ghost use Rattle.scan.specs.Address.{tail_of, closed_of, field_of, bracketed, parts_of, comma_text, bracket_text, Again, pieces_of, later_of};

use crate::address::{Parts, Piece};
use crate::spans::{after, front};
use card::until;

// The parts of an instruction's address; none where the brackets do not fit.
pub fn parts(text: &[u8]) -> Option<Parts<'_>>
    ensures parts { option_map (λ p. (p.a.now, option_map (λ x. x.now) p.index, option_map (λ x. x.now) p.field)) result ≡ parts_of text.now }
    ensures back { IfSome result (λ p. (p.a.now ++ comma_text (option_map (λ x. x.now) p.index)) ++ bracket_text (option_map (λ x. x.now) p.field) ≡ text.now) }
    ensures again { Again }
{
    let (head, field) = at_bracket(text)?;
    let (a, index) = at_comma(head);
    Some(Parts { a, index, field })
}

// The first piece of a W-value; none where its brackets do not fit.
pub fn first_piece(text: &[u8]) -> Option<Piece<'_>>
    ensures piece { option_map (λ p. (p.value.now, option_map (λ x. x.now) p.field)) result ≡ bracketed (before 44 text.now) }
    ensures rest { IfSome result (λ p. option_map (λ x. x.now) p.rest ≡ tail_of (onward 44 text.now)) }
    ensures back { IfSome result (λ p. (p.value.now ++ bracket_text (option_map (λ x. x.now) p.field)) ++ comma_text (option_map (λ x. x.now) p.rest) ≡ text.now) }
    ensures pieces { MatchOption result (pieces_of text.now ≡ None) (λ p. pieces_of text.now ≡ both (Some (p.value.now, option_map (λ x. x.now) p.field)) (later_of (option_map (λ x. x.now) p.rest))) }
    ensures shorter { IfSome result (λ p. IfSome p.rest (λ bs. length bs.now < length text.now)) }
{
    let (piece, rest) = at_comma(text);
    let (value, field) = at_bracket(piece)?;
    Some(Piece { value, field, rest })
}

// What stands before the first comma, and what follows it, if there is one.
fn at_comma(text: &[u8]) -> (&[u8], Option<&[u8]>)
    ensures head { result.0.now ≡ before 44 text.now }
    ensures rest { option_map (λ x. x.now) result.1 ≡ tail_of (onward 44 text.now) }
    ensures back { result.0.now ++ comma_text (option_map (λ x. x.now) result.1) ≡ text.now }
    ensures pieces { pieces_of text.now ≡ both (bracketed result.0.now) (later_of (option_map (λ x. x.now) result.1)) }
    ensures shorter { IfSome result.1 (λ bs. length bs.now < length text.now) }
{
    let n = until(text, b',');
    (front(text, n), tail(after(text, n)))
}

// What stands before the first opening bracket, and what the brackets hold, if there are any.
#[tactic(auto, using(crate::proofs::Written::again))]
fn at_bracket(text: &[u8]) -> Option<(&[u8], Option<&[u8]>)>
    ensures value { option_map (λ p. (p.0.now, option_map (λ x. x.now) p.1)) result ≡ bracketed text.now }
    ensures back { IfSome result (λ p. p.0.now ++ bracket_text (option_map (λ x. x.now) p.1) ≡ text.now) }
    ensures again { Again }
{
    let n = until(text, b'(');
    let field = field(after(text, n))?;
    Some((front(text, n), field))
}

// What follows a text's first byte, if it has one.
fn tail(text: &[u8]) -> Option<&[u8]>
    ensures { option_map (λ x. x.now) result ≡ tail_of text.now }
{
    text.split_first().map(|(_, rest)| rest)
}

// Of a text that is empty or begins with an opening bracket: what the brackets hold. The outer
// none says that the brackets do not fit, and the inner one that there are none. It is no enum of
// its own: by two options `?` hands on the one, and the other stands in `Parts` and `Piece`.
fn field(text: &[u8]) -> Option<Option<&[u8]>>
    ensures { option_map (λ f. option_map (λ x. x.now) f) result ≡ field_of text.now }
{
    match text {
        [] => Some(None),
        [_, rest @ ..] => closed(rest).map(Some),
    }
}

// What stands before a closing bracket that is the last byte.
fn closed(text: &[u8]) -> Option<&[u8]>
    ensures { option_map (λ x. x.now) result ≡ closed_of text.now }
{
    match text {
        [held @ .., b')'] => Some(held),
        _ => None,
    }
}
