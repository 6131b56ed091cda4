ghost use Rattle.std.specs.Prelude.{◌≡◌, ◌+◌, ◌<◌, ◌≤◌, false, vec_len, OnOk};
ghost use Rattle.mixal.specs.Causes.{out_of_range};
ghost use Rattle.mixal.specs.Deck.{defined, named_in, awaited_after, made_with, made_on, here_after, loc_word, w_value_on, after_operation, future_for, zero};
ghost use Rattle.mixal.specs.Model.{model_of};
ghost use Rattle.scan.specs.Columns.{address_of};
ghost use Rattle.std.specs.Option.{unwrap_or};
ghost use Rattle.symbols.specs.Symbols.{entries};

use crate::assembly::Assembly;
use crate::draft::{Draft, Made};
use crate::progress::Progress;
use crate::sound_card::{OperationCard, SoundCard};
use card::word_of;
use eval::Scope;
use instructions::instruction;
use names::Operation;
use scan::alf_text;
use std::alloc::AllocError;
use symbols::{Meaning, Symbols};
use table::Name;
use word::{Sign, Word};
use wvalues::w_value;

// A word, or +0 where there is none.
pub(crate) fn or_zero(word: Option<Word>) -> Word
    ensures { result ≡ unwrap_or word zero }
{
    word.unwrap_or(Word::wrapping(Sign::Plus, 0))
}

// The symbol, if there is one, is defined by a word.
pub(crate) fn define(symbols: &mut Symbols, loc: Option<Name>, word: Word) -> Result<(), AllocError>
    ensures { OnOk result (entries symbols.new ≡ defined (entries symbols.old) loc word) }
{
    match loc {
        Some(name) => symbols.give(name, Meaning::Defined(word)),
        None => Ok(()),
    }
}

// The future symbol, if there is one, is awaited from now on, unless it is so already.
fn await_name(
    symbols: &mut Symbols,
    awaited: &mut Vec<Name>,
    future: Option<Name>,
) -> Result<(), AllocError>
    ensures symbols { OnOk result (entries symbols.new ≡ named_in (entries symbols.old) future) }
    ensures names { OnOk result (awaited.new.items ≡ awaited_after (entries symbols.old) awaited.old.items future) }
    ensures long { vec_len awaited.new ≤ vec_len awaited.old + 1 }
{
    let Some(name) = future else {
        return Ok(());
    };
    if symbols.meaning(name).is_some() {
        return Ok(());
    }
    symbols.give(name, Meaning::Awaited)?;
    awaited.push(name)?;
    Ok(())
}

impl Progress {
    // Where the next ADDRESS is read.
    pub(crate) fn scope(&self) -> Scope<'_>
        ensures symbols { entries result.symbols.now ≡ entries self.now.symbols }
        ensures here { result.here ≡ self.now.here }
    {
        Scope {
            symbols: &self.symbols,
            here: self.here,
        }
    }
}

impl Assembly {
    // The W-value of a card's ADDRESS, and +0 where it has none.
    fn value(&self, card: &SoundCard<'_>) -> Word
        ensures { result ≡ w_value_on (model_of self.now) card.now.text.now }
    {
        or_zero(w_value(self.progress.scope(), card.address()))
    }

    // A word at the location, which may wait for a symbol.
    fn made_with(&self, word: Word, awaits: Option<Name>) -> Option<Made>
        ensures { result ≡ made_with self.now.progress.here word awaits }
    {
        Some(Made {
            location: self.progress.here,
            word,
            awaits,
        })
    }

    // What a card assembles, if anything; `future` is the future symbol that it names.
    fn made(&self, card: &OperationCard<'_>, future: Option<Name>) -> Option<Made>
        requires { future ≡ future_for (entries self.now.progress.symbols) (address_of card.now.sound.text.now) card.now.operation }
        ensures { result ≡ made_on (model_of self.now) card.now.sound.text.now card.now.operation }
    {
        match card.operation {
            Operation::Machine(i) => {
                let text = card.sound.address();
                let word = or_zero(instruction(self.progress.scope(), i, text));
                self.made_with(word, future)
            }
            Operation::Con => self.made_with(self.value(&card.sound), None),
            Operation::Alf => self.made_with(or_zero(word_of(alf_text(card.sound.text))), None),
            Operation::Equ | Operation::Orig | Operation::End => None,
        }
    }

    // What a card's LOC is defined by: the location, with EQU the W-value.
    fn loc_word(&self, card: &OperationCard<'_>) -> Word
        ensures { result ≡ loc_word (model_of self.now) card.now.sound.text.now card.now.operation }
    {
        match card.operation {
            Operation::Equ => self.value(&card.sound),
            _ => Word::wrapping(Sign::Plus, u64::from(self.progress.here)),
        }
    }

    // The location after a good card.
    fn here_after(&self, card: &OperationCard<'_>) -> u16
        requires { out_of_range (entries self.now.progress.symbols) self.now.progress.here card.now.sound.text.now card.now.operation ≡ false }
        ensures value { result ≡ here_after (model_of self.now) card.now.sound.text.now card.now.operation }
        ensures low { result ≤ 4000 }
    {
        match card.operation {
            Operation::Machine(_) | Operation::Con | Operation::Alf => self.progress.here + 1,
            Operation::Orig => self.value(&card.sound).magnitude as u16,
            Operation::Equ | Operation::End => self.progress.here,
        }
    }

    // What a good card does; `future` is the future symbol that it names.
    pub(crate) fn operate(
        &mut self,
        card: &OperationCard<'_>,
        future: Option<Name>,
    ) -> Result<(), AllocError>
        requires room { vec_len self.old.progress.drafts < 600 }
        requires future { future ≡ future_for (entries self.old.progress.symbols) (address_of card.now.sound.text.now) card.now.operation }
        requires good { out_of_range (entries self.old.progress.symbols) self.old.progress.here card.now.sound.text.now card.now.operation ≡ false }
        ensures { OnOk result (model_of self.new ≡ after_operation (model_of self.old) card.now.sound.text.now card.now.operation) }
    {
        let made = self.made(card, future);
        let word = self.loc_word(card);
        let here = self.here_after(card);
        self.progress.drafts.push(Draft {
            card: card.sound.columns,
            made,
        })?;
        await_name(&mut self.progress.symbols, &mut self.awaited, future)?;
        define(&mut self.progress.symbols, card.sound.loc(), word)?;
        self.progress.here = here;
        Ok(())
    }
}
