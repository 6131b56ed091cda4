use crate::cards::add_card;
use crate::case::Case;
use crate::times::Times;
use anyhow::Result;

// Where the cards of a row begin: in column 1, or in that of the operation.
#[derive(Clone, Copy)]
pub(crate) enum Column {
    First,
    Operation,
}

// Adds a row such as `IN 100(16) | LDA 100 with reader 0 gives MARK 1 16 1 | CLOCK 14 0` to a case.
pub(crate) fn add_row<'t>(case: &mut Case<'t>, column: Column, row: &'t str) -> Result<()> {
    let (row, wants) = parted(row, " gives ");
    let (cards, times) = parted(row, " with ");
    for card in cards.split('|') {
        add_card_at(&mut case.text, column, card)?;
    }
    if let Some(times) = times {
        case.frame.times.push(Times::read(times)?)?;
    }
    if let Some(wants) = wants {
        for want in wants.split('|') {
            case.frame.wants.push(want.trim())?;
        }
    }
    Ok(())
}

// What stands before a word, and what stands after it, if it is there.
fn parted<'t>(text: &'t str, word: &str) -> (&'t str, Option<&'t str>) {
    match text.split_once(word) {
        Some((before, after)) => (before, Some(after)),
        None => (text, None),
    }
}

// Adds a card that begins in a column.
fn add_card_at(text: &mut String, column: Column, card: &str) -> Result<()> {
    match column {
        Column::First => add_card(text, card.trim_end()),
        Column::Operation => {
            text.push_str("           ")?;
            add_card(text, card.trim())
        }
    }
}
