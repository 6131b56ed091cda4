use job_rack::{Settings, Times};
use rack::Unit;
use room_jobs::read_times;
use std::alloc::{AllocError, Global};
use std::process::Abort;
use std::test::Fail;

fn owned(heap: Global, words: &[&str]) -> Result<Vec<String>, AllocError> {
    let mut all = Vec::new(heap);
    for word in words {
        all.push(String::from_str(heap, word)?)?;
    }
    Ok(all)
}

fn time(times: &Settings, number: u8) -> u16 {
    times.time(Unit { number })
}

// What is said of the first word that sets no time.
fn refuses(rt: &impl Abort, heap: Global, words: &[&str], said: &str) -> Result<(), Fail> {
    let words = owned(heap, words)?;
    let Err(bad) = read_times(words.as_slice()) else {
        panic!(rt; "the words are read");
    };
    assert_eq!(rt; bad.to_string(heap)?.as_str(), said);
    Ok(())
}

// The times of the first room are 20 for the tapes, 30, 80, 100 and 60.
#[test]
fn units_have_double_the_time_that_is_not_set(rt: HostRuntime) {
    let Ok(times) = read_times(&[]) else {
        panic!(rt; "no word is bad");
    };
    assert_eq!(rt; time(&times, 0), 40);
    assert_eq!(rt; time(&times, 1), 40);
    assert_eq!(rt; time(&times, 8), 60);
    assert_eq!(rt; time(&times, 16), 160);
    assert_eq!(rt; time(&times, 17), 200);
    assert_eq!(rt; time(&times, 18), 120);
}

#[test]
fn words_set_times(rt: HostRuntime) -> Result<(), Fail> {
    let words = owned(rt.alloc(), &["16=0", "0=65535", "18=007", "08=9"])?;
    let Ok(times) = read_times(words.as_slice()) else {
        panic!(rt; "no word is bad");
    };
    assert_eq!(rt; time(&times, 16), 0);
    assert_eq!(rt; time(&times, 0), 65535);
    assert_eq!(rt; time(&times, 1), 40);
    assert_eq!(rt; time(&times, 18), 7);
    assert_eq!(rt; time(&times, 8), 9);
    assert_eq!(rt; time(&times, 17), 200);
    Ok(())
}

#[test]
fn the_first_bad_word_is_told(rt: HostRuntime) -> Result<(), Fail> {
    let heap = rt.alloc();
    refuses(
        &rt,
        heap,
        &["16"],
        "an argument is not written UNIT=TIME: \"16\"",
    )?;
    refuses(
        &rt,
        heap,
        &[""],
        "an argument is not written UNIT=TIME: \"\"",
    )?;
    refuses(
        &rt,
        heap,
        &["2=5"],
        "the unit is none of 0, 1, 8, 16, 17 and 18: \"2=5\"",
    )?;
    refuses(
        &rt,
        heap,
        &["272=5"],
        "the unit is none of 0, 1, 8, 16, 17 and 18: \"272=5\"",
    )?;
    refuses(
        &rt,
        heap,
        &["=5"],
        "the unit is none of 0, 1, 8, 16, 17 and 18: \"=5\"",
    )?;
    refuses(
        &rt,
        heap,
        &["+16=5"],
        "the unit is none of 0, 1, 8, 16, 17 and 18: \"+16=5\"",
    )?;
    refuses(
        &rt,
        heap,
        &["16="],
        "the time is no decimal from 0 to 65535: \"16=\"",
    )?;
    refuses(
        &rt,
        heap,
        &["16=65536"],
        "the time is no decimal from 0 to 65535: \"16=65536\"",
    )?;
    refuses(
        &rt,
        heap,
        &["16=-1", "2"],
        "the time is no decimal from 0 to 65535: \"16=-1\"",
    )?;
    refuses(
        &rt,
        heap,
        &["16=+1"],
        "the time is no decimal from 0 to 65535: \"16=+1\"",
    )?;
    refuses(
        &rt,
        heap,
        &["16=1=2"],
        "the time is no decimal from 0 to 65535: \"16=1=2\"",
    )?;
    refuses(
        &rt,
        heap,
        &["16=1", "18=1", "16=1"],
        "the unit's time is set twice: \"16=1\"",
    )
}
