use crate::words::word;
use card::{
    card_text, character, code, codes_of, first_card, line_text, read_card, reproduce, spelled,
    text_of, trim, until, word_of,
};
use std::test::Fail;
use word::{Sign, Word};

#[test]
fn the_ends_of_each_run_of_codes(rt: HostRuntime) {
    assert_eq!(rt; code(b' '), Some(0));
    assert_eq!(rt; code(b'A'), Some(1));
    assert_eq!(rt; code(b'I'), Some(9));
    assert_eq!(rt; code(b'~'), Some(10));
    assert_eq!(rt; code(b'J'), Some(11));
    assert_eq!(rt; code(b'R'), Some(19));
    assert_eq!(rt; code(b'['), Some(20));
    assert_eq!(rt; code(b']'), Some(21));
    assert_eq!(rt; code(b'S'), Some(22));
    assert_eq!(rt; code(b'Z'), Some(29));
    assert_eq!(rt; code(b'0'), Some(30));
    assert_eq!(rt; code(b'9'), Some(39));
    assert_eq!(rt; code(b'.'), Some(40));
    assert_eq!(rt; code(b'\''), Some(55));
}

#[test]
fn just_56_bytes_have_a_code(rt: HostRuntime) {
    let mut with_code = 0u32;
    for b in 0..=255u8 {
        if let Some(c) = code(b) {
            assert!(rt; character(c) == b);
            with_code = with_code.saturating_add(1);
        }
    }
    assert_eq!(rt; with_code, 56);
    assert_eq!(rt; code(b'a'), None);
    assert_eq!(rt; code(13), None);
    assert_eq!(rt; code(b'"'), None);
    assert_eq!(rt; character(56), b' ');
    assert_eq!(rt; character(255), b' ');
}

#[test]
fn five_characters_are_a_word(rt: HostRuntime) -> Result<(), Fail> {
    assert_eq!(rt;
        word_of(*b"HELLO"),
        Some(word(Sign::Plus, [8, 5, 13, 13, 16])?)
    );
    assert_eq!(rt; word_of(*b"hello"), None);
    assert!(rt; text_of(word(Sign::Minus, [8, 5, 13, 13, 16])?) == *b"HELLO");
    assert!(rt; text_of(word(Sign::Plus, [55, 56, 63, 0, 30])?) == *b"'   0");
    Ok(())
}

#[test]
fn codes_and_zeros_after_them(rt: HostRuntime) {
    assert_eq!(rt; codes_of(b"A9"), Some([1, 39, 0]));
    assert_eq!(rt; codes_of(b"A9'"), Some([1, 39, 55]));
    assert_eq!(rt; codes_of::<2>(b"A9'"), None);
    assert_eq!(rt; codes_of::<3>(b"a"), None);
    assert!(rt; spelled([1, 39, 0, 56]) == *b"A9  ");
}

#[test]
fn a_card_has_at_most_80_bytes(rt: HostRuntime) -> Result<(), Fail> {
    let text = [b'X'; 81];
    let full = word(Sign::Plus, [27, 27, 27, 27, 27])?;
    let blank = word(Sign::Plus, [0, 0, 0, 0, 0])?;
    let almost = word(Sign::Plus, [27, 27, 27, 27, 0])?;
    assert_eq!(rt; read_card(&text[0..81]), None);
    assert_eq!(rt; read_card(&text[0..80]), Some([full; 16]));
    assert_eq!(rt; read_card(&text[0..0]), Some([blank; 16]));
    match read_card(&text[0..79]) {
        Some(words) => {
            assert_eq!(rt; words[15], almost);
            assert_eq!(rt; words[14], full);
            Ok(())
        }
        None => Err(Fail::new("79 bytes are a card")),
    }
}

#[test]
fn a_byte_without_code_damages_a_card(rt: HostRuntime) {
    assert_eq!(rt; read_card(b"START IN 100(16)\r"), None);
    assert_eq!(rt; read_card(b"start"), None);
    assert_eq!(rt; read_card(b"A\tB"), None);
    assert!(rt; reproduce(b"start").is_none());
    let blanks = [b' '; 81];
    assert!(rt; reproduce(&blanks[0..80]).is_some());
    assert!(rt; reproduce(&blanks).is_none());
}

#[test]
fn a_card_reproduced_is_the_same(rt: HostRuntime) -> Result<(), Fail> {
    match reproduce(b"  END  START  ") {
        Some(out) => {
            assert!(rt; trim(&out) == b"  END  START".as_slice());
            assert!(rt; out[12] == b' ' && out[79] == b' ');
            Ok(())
        }
        None => Err(Fail::new("it is a card")),
    }
}

#[test]
fn words_as_a_card_and_as_a_line(rt: HostRuntime) -> Result<(), Fail> {
    let w = word(Sign::Minus, [1, 60, 2, 11, 55])?;
    let card = card_text(&[w; 16]);
    assert!(rt;
        card[0] == b'A'
            && card[1] == b' '
            && card[2] == b'B'
            && card[78] == b'J'
            && card[79] == b'\''
    );
    let line = line_text(&[w; 24]);
    assert!(rt; line[115] == b'A' && line[116] == b' ' && line[119] == b'\'');
    Ok(())
}

#[test]
fn bytes_before_a_stop_and_blanks_at_the_end(rt: HostRuntime) {
    assert_eq!(rt; until(b"AB,C,D", b','), 2);
    assert_eq!(rt; until(b"AB", b','), 2);
    assert!(rt; trim(b" A B  ") == b" A B".as_slice());
    assert!(rt; trim(b"   ").is_empty());
}

#[test]
fn a_text_is_split_at_byte_10(rt: HostRuntime) -> Result<(), Fail> {
    assert!(rt; first_card(b"").is_none());
    let Some((card, rest)) = first_card(b"A\n\nB") else {
        return Err(Fail::new("there is a card"));
    };
    assert!(rt; card == b"A".as_slice() && rest == b"\nB".as_slice());
    let Some((card, rest)) = first_card(rest) else {
        return Err(Fail::new("there is an empty card"));
    };
    assert!(rt; card.is_empty() && rest == b"B".as_slice());
    let Some((card, rest)) = first_card(rest) else {
        return Err(Fail::new("there is a last card"));
    };
    assert!(rt; card == b"B".as_slice() && rest.is_empty());
    Ok(())
}
