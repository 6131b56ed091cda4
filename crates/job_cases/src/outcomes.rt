use crate::calls::answers;
use crate::case::{Act, Case};
use crate::times::Times;
use crate::told::{mark_line, other_counts, phase_line, sheet_counts};
use crate::units::{Units, units};
use anyhow::{Result, bail};
use console::Loaded;
use deck_laws::assemble;
use jobs::{deck_text, reject_line};
use lines::memory_text;
use mixal::{Deck, Refusal};
use paper::first_cards;
use std::alloc::Global;
use word::{Sign, Word};

// What comes out of a case with units of some times.
pub(crate) fn outcome(heap: Global, case: &Case<'_>, times: Times) -> Result<String> {
    let text = case.text.as_bytes();
    let out = match (case.frame.act, assemble(heap, text)) {
        (Act::Mixjob, _) => jobs::report(heap, text)?,
        (_, Err(Refusal::Rejected(rejection))) => reject_line(heap, rejection)?,
        (_, Err(Refusal::NoMemory)) => bail!("memory is wanting"),
        (Act::List, Ok(deck)) => deck_text(heap, &deck)?,
        (act, Ok(deck)) => {
            let (_, cards) = first_cards(text, deck.cards());
            let units = units(heap, cards, times)?;
            match act {
                Act::Call => answers(heap, Loaded::load(deck, units), &case.frame.wants)?,
                _ => run(heap, deck, units)?,
            }
        }
    };
    Ok(String::from_utf8(out)?)
}

// The listing, and what comes of one run of 1,000,000 steps: how the machine stands and its sheet, or what its status
// and its words tell in place of one, and the counts that no sheet tells.
fn run(heap: Global, deck: Deck, units: Units<'_>) -> Result<Vec<u8>> {
    let mut out = deck_text(heap, &deck)?;
    let mut loaded = Loaded::load(deck, units);
    let _ = loaded.run(1_000_000);
    let status = loaded.status();
    add_line(&mut out, phase_line(heap, status.phase)?)?;
    match loaded.close() {
        Ok(closed) => out.extend_from_slice(&closed.text(heap)?)?,
        Err((loaded, _)) => add_told(heap, &mut out, &loaded)?,
    }
    add_line(&mut out, other_counts(heap, status.counts, "\n")?)?;
    Ok(out)
}

// Adds what a machine that has not halted tells, in the words of a sheet: its mark, its words, its counts.
fn add_told(heap: Global, out: &mut Vec<u8>, loaded: &Loaded<Units<'_>>) -> Result<()> {
    let status = loaded.status();
    add_line(out, mark_line(heap, status.mark)?)?;
    for location in 0..4000 {
        if let Ok(word) = loaded.peek(location) {
            add_word(out, location, word)?;
        }
    }
    add_line(out, sheet_counts(heap, status.counts, "\n")?)
}

// Adds the line of a word, unless it is +0.
fn add_word(out: &mut Vec<u8>, location: u16, word: Word) -> Result<()> {
    if word != Word::wrapping(Sign::Plus, 0) {
        out.extend_from_slice(&memory_text(location, word))?;
    }
    Ok(())
}

// Adds a line.
fn add_line(out: &mut Vec<u8>, line: String) -> Result<()> {
    out.extend_from_slice(line.as_bytes())?;
    out.push(b'\n')?;
    Ok(())
}
