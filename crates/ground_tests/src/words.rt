use std::test::Fail;
use word::{Sign, Word};

// The word of a sign and five bytes.
pub(crate) fn word(sign: Sign, bytes: [u8; 5]) -> Result<Word, Fail> {
    match Word::from_bytes(sign, bytes) {
        Some(word) => Ok(word),
        None => Err(Fail::new("a byte is above 63")),
    }
}

#[test]
fn zeros_are_two_words_and_one_number(rt: HostRuntime) -> Result<(), Fail> {
    let plus = word(Sign::Plus, [0, 0, 0, 0, 0])?;
    let minus = word(Sign::Minus, [0, 0, 0, 0, 0])?;
    assert_ne!(rt; plus, minus);
    assert!(rt; plus.same_number(minus));
    assert_eq!(rt; plus.negated(), minus);
    assert_eq!(rt; minus.negated(), plus);
    Ok(())
}

#[test]
fn bytes_make_a_magnitude_and_come_back(rt: HostRuntime) -> Result<(), Fail> {
    let largest = word(Sign::Minus, [63, 63, 63, 63, 63])?;
    assert_eq!(rt; largest.magnitude, 1_073_741_823);
    assert_eq!(rt; largest.sign, Sign::Minus);
    assert_eq!(rt; largest.to_bytes(), [63, 63, 63, 63, 63]);
    let first = word(Sign::Plus, [1, 0, 0, 0, 2])?;
    assert_eq!(rt; first.magnitude, 16_777_218);
    assert_eq!(rt; first.to_bytes(), [1, 0, 0, 0, 2]);
    assert!(rt; !first.same_number(largest));
    Ok(())
}

#[test]
fn a_byte_above_63_makes_no_word(rt: HostRuntime) {
    assert_eq!(rt; Word::from_bytes(Sign::Plus, [64, 0, 0, 0, 0]), None);
    assert_eq!(rt; Word::from_bytes(Sign::Plus, [0, 0, 255, 0, 0]), None);
    assert_eq!(rt; Word::from_bytes(Sign::Minus, [0, 0, 0, 0, 64]), None);
}
