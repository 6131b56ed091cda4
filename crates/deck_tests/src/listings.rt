use lines::{TooLong, copy_out, list_line, symbol_text, word_text};
use std::test::Fail;
use word::{Sign, Word};

#[test]
fn words_and_symbols_as_text(rt: HostRuntime) {
    // + 01 36 00 16 36
    let word = Word::wrapping(Sign::Plus, 26_215_460);
    assert!(rt; word_text(word) == *b"+ 01 36 00 16 36");
    assert!(rt; word_text(Word::wrapping(Sign::Minus, 0)) == *b"- 00 00 00 00 00");
    let start = [22, 23, 1, 19, 23, 0, 0, 0, 0, 0];
    assert!(rt;
        symbol_text(start, Word::wrapping(Sign::Plus, 0)) == *b"S START      + 00 00 00 00 00\n"
    );
}

#[test]
fn lines_lose_the_blanks_at_their_end(rt: HostRuntime) -> Result<(), Fail> {
    let mut out = Vec::new(rt.alloc());
    let word = Word::wrapping(Sign::Plus, 26_215_460);
    list_line(&mut out, Some((0, word)), b"START      IN   100(16)  ")?;
    list_line(&mut out, None, b"* REMARK")?;
    list_line(&mut out, Some((3999, word)), b"")?;
    list_line(&mut out, None, b"  ")?;
    let wanted =
        b"0000 + 01 36 00 16 36  START      IN   100(16)\n                       * REMARK\n3999 + 01 36 00 16 36\n\n";
    assert!(rt; out.as_slice() == wanted.as_slice());
    Ok(())
}

#[test]
fn a_buffer_too_short_stays(rt: HostRuntime) {
    let mut buffer = [b'.'; 4];
    assert_eq!(rt; copy_out(b"12345", &mut buffer), Err(TooLong { length: 5 }));
    assert!(rt; buffer == *b"....");
    assert_eq!(rt; copy_out(b"123", &mut buffer), Ok(3));
    assert!(rt; buffer == *b"123.");
    assert_eq!(rt; TooLong { length: 5 }.number(), 22);
}
