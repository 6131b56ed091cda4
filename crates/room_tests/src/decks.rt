use job_rack::Settings;
use rack::Unit;
use room_jobs::{differences, report};
use std::alloc::Global;
use std::process::Abort;
use std::test::Fail;

// These lines are printed of cards, where the reader takes a time in the second room.
fn prints(
    rt: &impl Abort,
    heap: Global,
    time: u16,
    cards: &[&str],
    lines: &[&str],
) -> Result<(), Fail> {
    let mut times = Settings::new();
    assert!(rt; times.set(Unit { number: 16 }, time).is_ok());
    let told = String::from_utf8(report(heap, times, cards.join(heap, "\n")?.as_bytes())?)?;
    let wanted = lines.join(heap, "\n")?;
    assert!(rt;
        told.strip_suffix('\n')
            .is_some_and(|t| t == wanted.as_str())
    );
    Ok(())
}

// The card is waited for in both rooms, for 80 units in the first.
#[test]
fn a_deck_that_waits_is_the_same(rt: HostRuntime) -> Result<(), Fail> {
    prints(
        &rt,
        rt.alloc(),
        7,
        &[
            "START      IN   100(16)",
            "           JBUS *(16)",
            "           HLT",
            "           END  START",
            "HELLO",
        ],
        &[
            "CLEAN",
            "J UNSETTLED",
            "OV OFF",
            "CI E",
            "0000 + 01 36 00 16 36",
            "0001 + 00 01 00 16 34",
            "0002 + 00 00 00 02 05",
            "0100 + 08 05 13 13 16",
            "WORK 3 12",
            "CLOCK 92 80",
            "CLEAN",
            "SAME but for the clock",
        ],
    )
}

// The word is loaded at clock 1. In the first room the card comes at 81, and HLT at clock 3 waits 78 units for it; in
// the second it is due at clock 1, and comes before.
#[test]
fn a_word_that_is_read_too_soon_differs(rt: HostRuntime) -> Result<(), Fail> {
    prints(
        &rt,
        rt.alloc(),
        0,
        &[
            "           IN   100(16)",
            "           LDA  100",
            "           HLT",
            "           ORIG 100",
            "           ALF  BYE",
            "           END  0",
            "HELLO",
        ],
        &[
            "MARK 1 16 1",
            "A + 02 28 05 00 00",
            "J + 00 00 00 00 00",
            "OV OFF",
            "CI E",
            "0000 + 01 36 00 16 36",
            "0001 + 01 36 00 05 08",
            "0002 + 00 00 00 02 05",
            "0100 + 08 05 13 13 16",
            "WORK 3 13",
            "CLOCK 91 78",
            "MARK 1 16 1",
            "< A + 02 28 05 00 00",
            "> A + 08 05 13 13 16",
        ],
    )
}

// The word is +0 in the first room, where the jump is not taken; in the second it is HELLO, and the jump leads out of
// memory.
#[test]
fn a_fault_stands_against_all_lines(rt: HostRuntime) -> Result<(), Fail> {
    prints(
        &rt,
        rt.alloc(),
        0,
        &[
            "           IN   100(16)",
            "           LDA  100",
            "           JANZ 4000",
            "           HLT",
            "           END  0",
            "HELLO",
        ],
        &[
            "MARK 1 16 1",
            "J + 00 00 00 00 00",
            "OV OFF",
            "CI E",
            "0000 + 01 36 00 16 36",
            "0001 + 01 36 00 05 08",
            "0002 + 62 32 00 04 40",
            "0003 + 00 00 00 02 05",
            "0100 + 08 05 13 13 16",
            "WORK 4 14",
            "CLOCK 91 77",
            "MARK 1 16 1",
            "> FAULT 10 4000",
            "< MARK 1 16 1",
            "< J + 00 00 00 00 00",
            "< OV OFF",
            "< CI E",
            "< 0000 + 01 36 00 16 36",
            "< 0001 + 01 36 00 05 08",
            "< 0002 + 62 32 00 04 40",
            "< 0003 + 00 00 00 02 05",
            "< 0100 + 08 05 13 13 16",
            "< WORK 4 14",
        ],
    )
}

// Nothing is said of the watch where the first room has not halted.
#[test]
fn one_fault_in_both_rooms_is_the_same(rt: HostRuntime) -> Result<(), Fail> {
    prints(
        &rt,
        rt.alloc(),
        7,
        &["           LDA  4000", "           END  0"],
        &["FAULT 10 4000", "SAME but for the clock"],
    )
}

#[test]
fn of_a_rejected_deck_only_that_is_told(rt: HostRuntime) -> Result<(), Fail> {
    prints(
        &rt,
        rt.alloc(),
        7,
        &[
            "           LDA  0",
            "           LDB  0",
            "           END  0",
        ],
        &["REJECT 4 2"],
    )
}

// A line of one text alone stands before the lines of greater places; of two lines of one place both are told.
#[test]
fn lines_are_matched_by_their_places(rt: HostRuntime) -> Result<(), Fail> {
    let first =
        b"P ONE\nP TWO\nC X\nCLEAN\nI1 + 00 00 00 00 01\nJ UNSETTLED\nOV ON\nCI L\n0007 + 00 00 00 00 01\nWORK 1 1\n";
    let second =
        b"P ONE\nP 2\nP 3\nCLEAN\nA + 00 00 00 00 02\nX - 00 00 00 00 00\nJ UNSETTLED\nOV OFF\nCI G\n0006 + 00 00 00 00 01\n0007 - 00 00 00 00 01\n3999 - 00 00 00 00 00\nWORK 1 2\n";
    let told = differences(rt.alloc(), first, second)?;
    let wanted =
        b"< P TWO\n> P 2\n> P 3\n< C X\n> A + 00 00 00 00 02\n< I1 + 00 00 00 00 01\n> X - 00 00 00 00 00\n< OV ON\n> OV OFF\n< CI L\n> CI G\n> 0006 + 00 00 00 00 01\n< 0007 + 00 00 00 00 01\n> 0007 - 00 00 00 00 01\n> 3999 - 00 00 00 00 00\n< WORK 1 1\n> WORK 1 2\n";
    assert_eq!(rt; told.as_slice(), wanted.as_slice());
    assert!(rt; differences(rt.alloc(), first, first)?.is_empty());
    assert!(rt; differences(rt.alloc(), b"", b"")?.is_empty());
    assert_eq!(rt;
        differences(rt.alloc(), b"", b"J UNSETTLED\n")?.as_slice(),
        b"> J UNSETTLED\n".as_slice()
    );
    Ok(())
}
