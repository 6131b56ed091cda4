ghost use Rattle.std.specs.Prelude.{◌≡◌, Ok, Err, map, string_bytes, MatchResult};
ghost use Rattle.job_rack.specs.SetTimes.{set_times};
ghost use Rattle.job_rack.specs.Settings.{no_settings};
ghost use Rattle.room_jobs.specs.Arguments.{decimal_of, set_in, word_read, words_read};

use card::until;
use job_rack::{NotSet, Settings};
use rack::Unit;
use thiserror::Error;

// A word that sets no time, and what is wrong with it.
#[derive(Clone, Copy, PartialEq, Eq, Debug, Error)]
#[error("{wrong}: {word:?}")]
pub struct BadArgument<'w> {
    pub word: &'w str,
    pub wrong: Wrong,
}

// What is wrong with a word: it is not written UNIT=TIME; a job has no such unit; the time is no decimal up to 65,535;
// an earlier word set the unit's time.
#[derive(Clone, Copy, PartialEq, Eq, Debug, Error)]
pub enum Wrong {
    #[error("an argument is not written UNIT=TIME")]
    NoSetting,
    #[error("the unit is none of 0, 1, 8, 16, 17 and 18")]
    NoUnit,
    #[error("the time is no decimal from 0 to 65535")]
    NoTime,
    #[error("the unit's time is set twice")]
    SetBefore,
}

// The times that words set, or the first word that sets none.
pub fn read_times(words: &[String]) -> Result<Settings, BadArgument<'_>>
    ensures { MatchResult result
        (λ times. words_read no_settings (map string_bytes words.now) ≡ Ok (set_times times))
        (λ bad. words_read no_settings (map string_bytes words.now) ≡ Err (bad.word.now, bad.wrong)) }
{
    let mut times = Settings::new();
    for word in words {
        let word = word.as_str();
        if let Err(wrong) = read_word(&mut times, word.as_bytes()) {
            return Err(BadArgument { word, wrong });
        }
    }
    Ok(times)
}

// The time that one word sets.

fn read_word(times: &mut Settings, word: &[u8]) -> Result<(), Wrong>
    ensures { MatchResult result
        (λ _. word_read (set_times times.old) word.now ≡ Ok (set_times times.new))
        (λ wrong. word_read (set_times times.old) word.now ≡ Err wrong) }
{
    let end = until(word, b'=');
    if end == word.len() {
        return Err(Wrong::NoSetting);
    }
    let Some(unit) = decimal(&word[..end]) else {
        return Err(Wrong::NoUnit);
    };
    let Some(time) = decimal(&word[end + 1..]) else {
        return Err(Wrong::NoTime);
    };
    set_time(times, unit, time)
}

// The time of a unit is set, once.
#[tactic(auto, using(crate::proofs::Reading::set_ok, crate::proofs::Reading::set_no_unit, crate::proofs::Reading::set_before, crate::proofs::Reading::far))]
fn set_time(times: &mut Settings, unit: u16, time: u16) -> Result<(), Wrong>
    ensures { MatchResult result
        (λ _. set_in (set_times times.old) unit time ≡ Ok (set_times times.new))
        (λ wrong. set_in (set_times times.old) unit time ≡ Err wrong) }
{
    let Ok(number) = u8::try_from(unit) else {
        return Err(Wrong::NoUnit);
    };
    match times.set(Unit { number }, time) {
        Ok(()) => Ok(()),
        Err(NotSet::NoUnit) => Err(Wrong::NoUnit),
        Err(NotSet::SetBefore) => Err(Wrong::SetBefore),
    }
}

// The number of a text of digits, if it is at most 65,535.
fn decimal(text: &[u8]) -> Option<u16>
    ensures { result ≡ decimal_of text.now }
{
    if text.is_empty() {
        return None;
    }
    let mut number = 0u16;
    for byte in text {
        if !byte.is_ascii_digit() {
            return None;
        }
        number = number
            .checked_mul(10)?
            .checked_add(u16::from(*byte - b'0'))?;
    }
    Some(number)
}
