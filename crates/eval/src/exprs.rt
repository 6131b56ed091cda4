ghost use Rattle.std.specs.Prelude.{◌≡◌, true, is_some};
ghost use Rattle.eval.specs.Eval.{as_number, atom_word, applied, stepped, worked_by, value_of, is_unknown, any_unknown_in, undefined_in};
ghost use Rattle.scan.specs.Terms.{more_of, terms_of};
ghost use Rattle.std.specs.Option.{option_map};
ghost use Rattle.symbols.specs.Symbols.{entries, known_as};
ghost use Rattle.values.specs.Values.{fitted};
ghost use Rattle.word.specs.declared.sign.Sign.TheVariants.{Plus};

use crate::scope::Scope;
use scan::{Atom, Operator, Term, first_term, is_expression, next_term};
use symbols::Symbols;
use table::Name;
use values::{add, colon, divide, fitted, fraction, multiply, number, subtract};
use word::{Sign, Word};

impl Scope<'_> {
    // The value of an expression; none where it is out of range, where the text is no expression
    // or where a symbol is not defined.
    pub fn value(self, text: &[u8]) -> Option<Word>
        ensures { result ≡ value_of (entries self.entry.symbols.now) self.entry.here text.now }
    {
        let zero = Word::wrapping(Sign::Plus, 0);
        let (term, mut rest) = first_term(text)?;
        let mut value = self.step(zero, term)?;
        while !rest.is_empty() {
            let (term, next) = next_term(rest)?;
            value = self.step(value, term)?;
            rest = next;
        }
        Some(value)
    }

    // One term worked on a value.
    fn step(self, value: Word, term: Term) -> Option<Word>
        ensures { result ≡ stepped (entries self.entry.symbols.now) self.entry.here value term }
    {
        let operand = self.operand(term.atom)?;
        apply(term.op, value, operand)
    }

    // What an atom stands for.
    fn operand(self, atom: Atom) -> Option<Word>
        ensures { result ≡ atom_word (entries self.entry.symbols.now) self.entry.here atom }
    {
        match atom {
            Atom::Number(n) => fitted(Sign::Plus, n),
            Atom::Symbol(codes) => self.meant(codes),
            Atom::Here => Some(Word::wrapping(Sign::Plus, u64::from(self.here))),
        }
    }

    // The word of a symbol as a number, if it is defined.
    fn meant(self, codes: [u8; 10]) -> Option<Word>
        ensures { result ≡ option_map as_number (known_as (entries self.entry.symbols.now) (record { codes = codes })) }
    {
        self.symbols.word(Name { codes }).map(number)
    }
}

// Whether an expression names a symbol that is not defined.
pub fn undefined(symbols: &Symbols, text: &[u8]) -> bool
    ensures { result ≡ undefined_in (entries symbols.now) text.now }
{
    is_expression(text) && names_unknown(symbols, text)
}

// Whether a term of an expression is a symbol that is not defined.
#[tactic(auto, using(crate::proofs::Steps::unknown_rest))]
fn names_unknown(symbols: &Symbols, text: &[u8]) -> bool
    ensures { is_some (terms_of text.now) ≡ true → result ≡ undefined_in (entries symbols.now) text.now }
{
    let Some((term, rest)) = first_term(text) else {
        return false;
    };
    is_unknown(symbols, term.atom) || any_unknown(symbols, rest)
}

// Whether one of a text's further terms is a symbol that is not defined.
#[tactic(auto, using(crate::proofs::Steps::unknown_rest))]
fn any_unknown(symbols: &Symbols, text: &[u8]) -> bool
    ensures { is_some (more_of text.now) ≡ true → result ≡ any_unknown_in (entries symbols.now) (more_of text.now) }
{
    let mut rest = text;
    while let Some((term, next)) = next_term(rest) {
        if is_unknown(symbols, term.atom) {
            return true;
        }
        rest = next;
    }
    false
}

// Whether an atom is a symbol that is not defined.
fn is_unknown(symbols: &Symbols, atom: Atom) -> bool
    ensures { result ≡ is_unknown (entries symbols.now) atom }
{
    match atom {
        Atom::Symbol(codes) => symbols.word(Name { codes }).is_none(),
        Atom::Number(_) | Atom::Here => false,
    }
}

// One operator worked. A match: the six operators are all that there are, and each has its definition.
fn apply(op: Operator, a: Word, b: Word) -> Option<Word>
    ensures { result ≡ applied op a b }
{
    match op {
        Operator::Plus => add(a, b),
        Operator::Minus => subtract(a, b),
        Operator::Times => multiply(a, b),
        Operator::Divide => divide(a, b),
        Operator::Fraction => fraction(a, b),
        Operator::Colon => colon(a, b),
    }
}
