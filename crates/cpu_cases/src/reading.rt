use anyhow::{Context, Result, bail, ensure};
use std::num::ParseIntError;
use std::str::FromStr;
use word::{Sign, Word};

// A number without a sign.
pub(crate) fn count<N: FromStr<Err = ParseIntError>>(text: &str) -> Result<N> {
    ensure!(
        text.bytes().all(|b| b.is_ascii_digit()),
        "{text} is no number"
    );
    text.parse::<N>()
        .context(format_args!("{text} is no number that fits"))
}

// A word: a sign, and a number, as -5, or five bytes, as -1.16.3.5.4.
pub(crate) fn word(text: &str) -> Result<Word> {
    let (sign, digits) = if let Some(digits) = text.strip_prefix('+') {
        (Sign::Plus, digits)
    } else if let Some(digits) = text.strip_prefix('-') {
        (Sign::Minus, digits)
    } else {
        bail!("{text} has no sign");
    };
    let magnitude = if digits.contains('.') {
        bytes(digits)?
    } else {
        count::<u64>(digits)?
    };
    ensure!(magnitude < 0x4000_0000, "{text} is beyond a word");
    Ok(Word::wrapping(sign, magnitude))
}

// The number that five bytes write, as 1.16.3.5.4.
fn bytes(text: &str) -> Result<u64> {
    let mut number = 0u64;
    for part in text.split('.') {
        let byte = count::<u8>(part)?;
        ensure!(byte < 64, "{byte} is beyond a byte");
        number = number.wrapping_mul(64).wrapping_add(u64::from(byte));
    }
    ensure!(text.split('.').count() == 5, "{text} is not five bytes");
    Ok(number)
}

// A name and its value, as A=-5.
pub(crate) fn setting(text: &str) -> Result<(&str, &str)> {
    text.split_once('=')
        .context(format_args!("{text} is not known"))
}

// Two parts with a colon between.
pub(crate) fn parts(text: &str) -> Result<(&str, &str)> {
    text.split_once(':')
        .context(format_args!("{text} has no colon"))
}

// Refuses words of which two set the same.
pub(crate) fn distinct(text: &str) -> Result<()> {
    for word in text.split_whitespace() {
        let same = text
            .split_whitespace()
            .filter(|other| name_of(other) == name_of(word))
            .count();
        ensure!(same == 1, "{word} is said twice");
    }
    Ok(())
}

// What a word sets: all before the =.
fn name_of(word: &str) -> &str {
    match word.split_once('=') {
        Some((name, _)) => name,
        None => word,
    }
}
