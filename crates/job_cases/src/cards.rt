use anyhow::{Context, Result, bail};

// Adds a card as the table writes it, and the end of its line, unless `\c` stands at its end.
pub(crate) fn add_card(text: &mut String, card: &str) -> Result<()> {
    let (card, end) = match card.strip_suffix("\\c") {
        Some(card) => (card, ""),
        None => (card, "\n"),
    };
    let mut pieces = card.split('\\');
    text.push_str(pieces.next().unwrap_or(""))?;
    for piece in pieces {
        let (byte, rest) = escaped(piece)?;
        text.push(byte)?;
        text.push_str(rest)?;
    }
    text.push_str(end)?;
    Ok(())
}

// Adds copies of a card; where it has `###`, the number of the copy stands there, from 0.
pub(crate) fn add_copies(text: &mut String, copies: &str) -> Result<()> {
    let (count, card) = copies.split_once(' ').unwrap_or((copies, ""));
    for copy in 0..count.parse::<u16>().context("how many copies")? {
        match card.split_once("###") {
            Some((front, back)) => {
                text.push_str(front)?;
                push_number(text, copy)?;
                add_card(text, back)?;
            }
            None => add_card(text, card)?,
        }
    }
    Ok(())
}

// Adds a number by three digits.
fn push_number(text: &mut String, number: u16) -> Result<()> {
    for unit in [100, 10, 1] {
        let digit = (number / unit % 10) as u8;
        text.push(char::from(b'0' + digit))?;
    }
    Ok(())
}

// The byte that an escape means, and what stands after the escape.
fn escaped(piece: &str) -> Result<(char, &str)> {
    for (name, byte) in [('s', ' '), ('t', '\t'), ('r', '\r'), ('0', '\0')] {
        if let Some(rest) = piece.strip_prefix(name) {
            return Ok((byte, rest));
        }
    }
    bail!("no such escape: \\{piece}")
}
