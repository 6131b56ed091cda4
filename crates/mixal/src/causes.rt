ghost use Rattle.std.specs.Prelude.{◌≡◌, ◌≤◌, false, Some, None, IfErr, OnOk};
ghost use Rattle.mixal.specs.Causes.{bad_columns, is_known, unreadable, undefined_for, is_location, suits, loc_awaited, out_of_range, is_new, same_name, too_many, late_cause};
ghost use Rattle.mixal.specs.Deck.{future_name, future_for, a_part};
ghost use Rattle.mixal.specs.Ends.{is_awaited};
ghost use Rattle.scan.specs.Columns.{address_of};
ghost use Rattle.symbols.specs.Symbols.{entries};

use crate::cause::Cause;
use crate::sound_card::OperationCard;
use eval::Scope;
use instructions::{address_undefined, future, instruction, is_address};
use names::Operation;
use scan::{gap_filled, is_symbol, loc_text, parts};
use symbols::{Meaning, Symbols};
use table::Name;
use word::{Sign, Word};
use wvalues::{is_w_value, w_undefined, w_value};

// 2: LOC is neither blank nor a symbol, or column 11 or 16 is filled.
pub(crate) fn bad_columns(card: &[u8]) -> bool
    ensures { result ≡ bad_columns card.now }
{
    let loc = loc_text(card);
    !(loc.is_empty() || is_symbol(loc)) || gap_filled(card)
}

// 3: the symbol in LOC is defined already.
pub(crate) fn is_known(symbols: &Symbols, loc: Option<Name>) -> bool
    ensures { result ≡ is_known (entries symbols.now) loc }
{
    loc.is_some_and(|name| symbols.word(name).is_some())
}

// 5: the ADDRESS is not what the operation takes.
pub(crate) fn is_unreadable(text: &[u8], operation: Operation) -> bool
    ensures { result ≡ unreadable text.now operation }
{
    match operation {
        Operation::Machine(_) => !is_address(text),
        Operation::Alf => false,
        Operation::Equ | Operation::Orig | Operation::Con | Operation::End => !is_w_value(text),
    }
}

// 6: it names a symbol that is not defined.
fn is_undefined(symbols: &Symbols, text: &[u8], operation: Operation) -> bool
    ensures { unreadable text.now operation ≡ false → result ≡ undefined_for (entries symbols.now) text.now operation }
{
    match operation {
        Operation::Machine(_) => address_undefined(symbols, text),
        Operation::Alf => false,
        Operation::Equ | Operation::Orig | Operation::Con | Operation::End => {
            w_undefined(symbols, text)
        }
    }
}

// 7: a value or the location is out of range.
fn is_out_of_range(scope: Scope<'_>, card: &OperationCard<'_>) -> bool
    ensures { result ≡ out_of_range (entries scope.entry.symbols.now) scope.entry.here card.now.sound.text.now card.now.operation }
{
    let text = card.sound.address();
    match card.operation {
        Operation::Machine(i) => scope.here >= 4000 || instruction(scope, i, text).is_none(),
        Operation::Equ => !is_suited(
            loc_awaited(scope.symbols, card.sound.loc()),
            w_value(scope, text),
        ),
        Operation::Orig => !is_location(w_value(scope, text)),
        Operation::Con => scope.here >= 4000 || w_value(scope, text).is_none(),
        Operation::Alf => scope.here >= 4000,
        Operation::End => scope.here > 4000 || w_value(scope, text).is_none(),
    }
}

// 9: one symbol more than 500.
fn is_too_many(symbols: &Symbols, loc: Option<Name>, future: Option<Name>) -> bool
    ensures { result ≡ too_many (entries symbols.now) loc future }
{
    let named = if is_same(loc, future) {
        0
    } else {
        new_names(symbols, future)
    };
    symbols.len() > 500 - new_names(symbols, loc) - named
}

// The first of the causes from 6 on that holds of a card whose ADDRESS is readable; `future` is the
// future symbol that it names, and `missing` says that it is the last and not END.
pub(crate) fn check_late(
    scope: Scope<'_>,
    card: &OperationCard<'_>,
    future: Option<Name>,
    missing: bool,
) -> Result<(), Cause>
    requires readable { unreadable (address_of card.now.sound.text.now) card.now.operation ≡ false }
    requires future { future ≡ future_for (entries scope.symbols.now) (address_of card.now.sound.text.now) card.now.operation }
    ensures good { OnOk result (late_cause missing (entries scope.entry.symbols.now) scope.entry.here card.now.sound.text.now card.now.operation ≡ None) }
    ensures bad { IfErr result (λ x. late_cause missing (entries scope.entry.symbols.now) scope.entry.here card.now.sound.text.now card.now.operation ≡ Some x) }
{
    let text = card.sound.address();
    if is_undefined(scope.symbols, text, card.operation) {
        return Err(Cause::Undefined);
    }
    if is_out_of_range(scope, card) {
        return Err(Cause::Range);
    }
    if missing {
        return Err(Cause::NoEnd);
    }
    if is_too_many(scope.symbols, card.sound.loc(), future) {
        return Err(Cause::TooManySymbols);
    }
    Ok(())
}

// The future symbol that a card names, if its operation takes one.
pub(crate) fn future_for(symbols: &Symbols, text: &[u8], operation: Operation) -> Option<Name>
    ensures { result ≡ future_for (entries symbols.now) text.now operation }
{
    match operation {
        Operation::Machine(_) => future_name(symbols, text),
        _ => None,
    }
}

// The future symbol of an instruction's ADDRESS, if it has one.
fn future_name(symbols: &Symbols, text: &[u8]) -> Option<Name>
    ensures { result ≡ future_name (entries symbols.now) text.now }
{
    let codes = future(symbols, a_part(text))?;
    Some(Name { codes })
}

// The A-part of an ADDRESS.
fn a_part(text: &[u8]) -> &[u8]
    ensures { result.now ≡ a_part text.now }
{
    parts(text).map_or(&[], |parts| parts.a)
}

// Whether a name is there that has not appeared: one new symbol, or none.
fn new_names(symbols: &Symbols, name: Option<Name>) -> usize
    ensures value { result ≡ is_new (entries symbols.now) name }
    ensures bound { result ≤ 1 }
{
    usize::from(name.is_some_and(|name| symbols.meaning(name).is_none()))
}

// Whether two names are there, and the same.
fn is_same(a: Option<Name>, b: Option<Name>) -> bool
    ensures { result ≡ same_name a b }
{
    a.zip(b).is_some_and(|(m, n)| m == n)
}

// Whether a name has appeared and waits to be defined.
pub(crate) fn is_awaited(meaning: Option<Meaning>) -> bool
    ensures { result ≡ is_awaited meaning }
{
    meaning.is_some_and(|meaning| meaning.word().is_none())
}

// Whether the symbol in LOC is awaited.
fn loc_awaited(symbols: &Symbols, loc: Option<Name>) -> bool
    ensures { result ≡ loc_awaited (entries symbols.now) loc }
{
    loc.is_some_and(|name| is_awaited(symbols.meaning(name)))
}

// Whether a value is a location from 0 to 4000.
fn is_location(value: Option<Word>) -> bool
    ensures { result ≡ is_location value }
{
    value.is_some_and(|word| {
        (word.sign == Sign::Plus || word.magnitude == 0) && word.magnitude <= 4000
    })
}

// Whether a value is there that a symbol can have: one that is awaited stands in an A-part.
fn is_suited(awaited: bool, value: Option<Word>) -> bool
    ensures { result ≡ suits awaited value }
{
    value.is_some_and(|word| !awaited || word.magnitude <= 4095)
}
