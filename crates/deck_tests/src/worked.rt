use eval::{Scope, undefined};
use instructions::{address_undefined, future, instruction, is_address};
use names::Instruction;
use scan::name_codes;
use std::test::Fail;
use symbols::{Meaning, Symbols};
use table::Name;
use values::fitted;
use word::{Sign, Word};
use wvalues::{is_w_value, w_undefined, w_value};

fn plus(n: u64) -> Option<Word> {
    Some(Word::wrapping(Sign::Plus, n))
}

fn minus(n: u64) -> Option<Word> {
    Some(Word::wrapping(Sign::Minus, n))
}

// Some symbols at a location.
fn at(symbols: &Symbols, here: u16) -> Scope<'_> {
    Scope { symbols, here }
}

fn name(text: &[u8]) -> Result<Name, Fail> {
    match name_codes(text) {
        Some(codes) => Ok(Name { codes }),
        None => Err(Fail::new("no symbol")),
    }
}

#[test]
fn expressions_go_from_left_to_right(rt: HostRuntime) {
    let none = Symbols::new(rt.alloc());
    let scope = at(&none, 0);
    assert_eq!(rt; scope.value(b"-1+5*20/6"), plus(13));
    assert_eq!(rt; scope.value(b"1//3"), plus(357_913_941));
    assert_eq!(rt; scope.value(b"1:5"), plus(13));
    assert_eq!(rt; at(&none, 100).value(b"***"), plus(10_000));
    assert_eq!(rt; at(&none, 100).value(b"*-101"), minus(1));
    assert_eq!(rt; scope.value(b"-7/2"), minus(3));
    assert_eq!(rt; scope.value(b"-0"), plus(0));
    assert_eq!(rt; scope.value(b"5-5"), plus(0));
}

#[test]
fn values_stop_at_the_largest_magnitude(rt: HostRuntime) {
    let none = Symbols::new(rt.alloc());
    let scope = at(&none, 0);
    assert_eq!(rt; scope.value(b"1073741823"), plus(1_073_741_823));
    assert_eq!(rt; scope.value(b"1073741824"), None);
    assert_eq!(rt; scope.value(b"1073741823+1"), None);
    assert_eq!(rt; scope.value(b"-1073741823-1+1"), None);
    assert_eq!(rt; scope.value(b"32768*32768"), None);
    assert_eq!(rt; scope.value(b"1/0"), None);
    assert_eq!(rt; scope.value(b"1//0"), None);
    assert_eq!(rt; scope.value(b"1//1"), None);
    assert_eq!(rt; scope.value(b"134217728:0"), None);
    assert_eq!(rt; scope.value(b"-134217728:1"), minus(1_073_741_823));
}

#[test]
fn symbols_stand_for_their_words(rt: HostRuntime) -> Result<(), Fail> {
    let mut symbols = Symbols::new(rt.alloc());
    symbols.give(
        name(b"TEN")?,
        Meaning::Defined(Word::wrapping(Sign::Plus, 10)),
    )?;
    symbols.give(
        name(b"ZERO")?,
        Meaning::Defined(Word::wrapping(Sign::Minus, 0)),
    )?;
    symbols.give(name(b"LATER")?, Meaning::Awaited)?;
    assert_eq!(rt; symbols.len(), 3);
    let scope = at(&symbols, 0);
    assert_eq!(rt; scope.value(b"TEN*TEN"), plus(100));
    assert_eq!(rt; scope.value(b"ZERO"), plus(0));
    assert_eq!(rt; scope.value(b"LATER"), None);
    assert!(rt; undefined(&symbols, b"TEN+LATER"));
    assert!(rt; undefined(&symbols, b"NEVER"));
    assert!(rt; !undefined(&symbols, b"TEN+ZERO"));
    assert!(rt; !undefined(&symbols, b"LATER+"));
    Ok(())
}

// The word of a sign and five bytes, as an answer.
fn word(sign: Sign, bytes: [u8; 5]) -> Option<Word> {
    Word::from_bytes(sign, bytes)
}

#[test]
fn w_values_store_their_pieces(rt: HostRuntime) {
    let none = Symbols::new(rt.alloc());
    let scope = at(&none, 0);
    assert_eq!(rt;
        w_value(scope, b"1,-1000(0:2)"),
        word(Sign::Minus, [15, 40, 0, 0, 1])
    );
    assert_eq!(rt; w_value(scope, b"5"), plus(5));
    assert_eq!(rt; w_value(scope, b"-1(0:0)"), minus(0));
    assert_eq!(rt; w_value(scope, b"4097(5:5)"), plus(1));
    assert_eq!(rt; w_value(scope, b"1(6)"), None);
    assert_eq!(rt; w_value(scope, b"1(5:1)"), None);
    assert_eq!(rt; w_value(scope, b"1(64)"), None);
    assert_eq!(rt; w_value(scope, b"1(-1)"), None);
    assert!(rt; is_w_value(b"1,2(3),*"));
    assert!(rt; !is_w_value(b""));
    assert!(rt; !is_w_value(b"1,"));
    assert!(rt; !is_w_value(b"1()"));
    assert!(rt; w_undefined(&none, b"1,X(5)"));
    assert!(rt; w_undefined(&none, b"1(X)"));
}

#[test]
fn instructions_and_their_parts(rt: HostRuntime) {
    let none = Symbols::new(rt.alloc());
    let scope = at(&none, 0);
    assert_eq!(rt;
        instruction(scope, Instruction { c: 36, f: 0 }, b"100(16)"),
        word(Sign::Plus, [1, 36, 0, 16, 36])
    );
    assert_eq!(rt;
        instruction(at(&none, 1), Instruction { c: 34, f: 0 }, b"*(16)"),
        word(Sign::Plus, [0, 1, 0, 16, 34])
    );
    assert_eq!(rt;
        instruction(scope, Instruction { c: 5, f: 2 }, b""),
        word(Sign::Plus, [0, 0, 0, 2, 5])
    );
    assert_eq!(rt;
        instruction(scope, Instruction { c: 8, f: 5 }, b"-4095,6"),
        word(Sign::Minus, [63, 63, 6, 5, 8])
    );
    assert_eq!(rt;
        instruction(scope, Instruction { c: 8, f: 5 }, b"4096"),
        None
    );
    assert_eq!(rt;
        instruction(scope, Instruction { c: 8, f: 5 }, b"0,7"),
        None
    );
    assert_eq!(rt;
        instruction(scope, Instruction { c: 8, f: 5 }, b"0(64)"),
        None
    );
    assert_eq!(rt;
        instruction(scope, Instruction { c: 8, f: 5 }, b"LATER"),
        word(Sign::Plus, [0, 0, 0, 5, 8])
    );
    assert!(rt; future(&none, b"LATER").is_some());
    assert!(rt; future(&none, b"LATER+1").is_none());
    assert!(rt; !address_undefined(&none, b"LATER,1"));
    assert!(rt; address_undefined(&none, b"LATER+1"));
    assert!(rt; address_undefined(&none, b"0,LATER"));
    assert!(rt; is_address(b"") && is_address(b",1") && is_address(b"(5)"));
    assert!(rt; !is_address(b"1,") && !is_address(b"1()") && !is_address(b"1,2,3"));
}

#[test]
fn a_value_is_below_two_to_the_thirtieth(rt: HostRuntime) {
    assert_eq!(rt; fitted(Sign::Minus, 0), plus(0));
    assert_eq!(rt; fitted(Sign::Minus, 1_073_741_823), minus(1_073_741_823));
    assert_eq!(rt; fitted(Sign::Minus, 1_073_741_824), None);
}
