use crate::words::word;
use arith::{
    add, add_index, compare, enter, enter_negative, subtract, subtract_index, total, whole_product,
};
use std::cmp::Ordering;
use std::test::Fail;
use word::{Index, Sign, Word};

// The word of a sign and a small number.
fn number(sign: Sign, n: u64) -> Word {
    Word::wrapping(sign, n)
}

#[test]
fn a_zero_sum_keeps_the_sign_of_the_register(rt: HostRuntime) {
    let plus = number(Sign::Plus, 0);
    let minus = number(Sign::Minus, 0);
    assert_eq!(rt;
        add(number(Sign::Plus, 5), number(Sign::Minus, 5)).word,
        plus
    );
    assert_eq!(rt;
        add(number(Sign::Minus, 5), number(Sign::Plus, 5)).word,
        minus
    );
    assert_eq!(rt; add(plus, minus).word, plus);
    assert_eq!(rt; add(minus, plus).word, minus);
    assert_eq!(rt; subtract(minus, minus).word, minus);
    assert_eq!(rt;
        subtract(number(Sign::Plus, 3), number(Sign::Plus, 3)).word,
        plus
    );
}

#[test]
fn a_sum_wraps_at_the_largest_magnitude(rt: HostRuntime) -> Result<(), Fail> {
    let largest = word(Sign::Plus, [63, 63, 63, 63, 63])?;
    let once = add(largest, number(Sign::Plus, 1));
    assert_eq!(rt; once.word, number(Sign::Plus, 0));
    assert!(rt; once.overflow);
    let twice = add(largest.negated(), largest.negated());
    assert_eq!(rt; twice.word, number(Sign::Minus, 1_073_741_822));
    assert!(rt; twice.overflow);
    let back = subtract(largest, largest.negated());
    assert_eq!(rt; back.word, number(Sign::Plus, 1_073_741_822));
    assert!(rt; back.overflow);
    let apart = add(largest, number(Sign::Minus, 1));
    assert_eq!(rt; apart.word, number(Sign::Plus, 1_073_741_822));
    assert!(rt; !apart.overflow);
    Ok(())
}

// An index that is not refused.
fn within(index: Option<Index>) -> Result<Index, Fail> {
    match index {
        Some(index) => Ok(index),
        None => Err(Fail::new("beyond 4,095")),
    }
}

fn index(sign: Sign, n: u64) -> Result<Index, Fail> {
    within(Index::try_from(number(sign, n)).ok())
}

#[test]
fn an_index_sum_stops_at_4095(rt: HostRuntime) -> Result<(), Fail> {
    let top = index(Sign::Plus, 4095)?;
    assert!(rt; add_index(top, number(Sign::Plus, 1)).is_none());
    assert!(rt; subtract_index(index(Sign::Minus, 4095)?, number(Sign::Plus, 1)).is_none());
    assert!(rt; add_index(top, number(Sign::Plus, 1_073_741_823)).is_none());
    assert_eq!(rt;
        Word::from(within(add_index(top, number(Sign::Minus, 0)))?),
        number(Sign::Plus, 4095)
    );
    let zero = within(add_index(index(Sign::Minus, 5)?, number(Sign::Plus, 5)))?;
    assert_eq!(rt; Word::from(zero), number(Sign::Minus, 0));
    let below = within(subtract_index(top, number(Sign::Plus, 4096)))?;
    assert_eq!(rt; Word::from(below), number(Sign::Minus, 1));
    assert!(rt; Index::try_from(number(Sign::Minus, 4096)).is_err());
    Ok(())
}

fn is_less(a: Word, b: Word) -> bool {
    matches!(compare(a, b), Ordering::Less) && matches!(compare(b, a), Ordering::Greater)
}

#[test]
fn words_compare_as_numbers(rt: HostRuntime) {
    let zero = number(Sign::Plus, 0);
    assert!(rt; matches!(compare(zero, zero.negated()), Ordering::Equal));
    assert!(rt; matches!(compare(zero.negated(), zero), Ordering::Equal));
    assert!(rt; is_less(number(Sign::Minus, 1), zero));
    assert!(rt; is_less(zero.negated(), number(Sign::Plus, 1)));
    assert!(rt; is_less(number(Sign::Minus, 5), number(Sign::Minus, 3)));
    assert!(rt;
        is_less(
            number(Sign::Minus, 1_073_741_823),
            number(Sign::Plus, 1_073_741_823),
        )
    );
    assert!(rt; is_less(number(Sign::Plus, 3), number(Sign::Plus, 5)));
}

#[test]
fn enter_takes_the_sign_of_the_instruction_at_zero(rt: HostRuntime) {
    let zero = number(Sign::Plus, 0);
    let five = number(Sign::Plus, 5);
    assert_eq!(rt; enter(Sign::Minus, zero), zero.negated());
    assert_eq!(rt; enter(Sign::Plus, zero.negated()), zero);
    assert_eq!(rt; enter(Sign::Minus, five), five);
    assert_eq!(rt; enter_negative(Sign::Plus, zero), zero.negated());
    assert_eq!(rt; enter_negative(Sign::Minus, zero), zero);
    assert_eq!(rt; enter_negative(Sign::Plus, five.negated()), five);
}

#[test]
fn sums_and_products_of_magnitudes(rt: HostRuntime) {
    assert_eq!(rt; total(Sign::Minus, 5, Sign::Plus, 5), (Sign::Minus, 0));
    assert_eq!(rt; total(Sign::Plus, 3, Sign::Minus, 8), (Sign::Minus, 5));
    assert_eq!(rt; total(Sign::Minus, 8, Sign::Minus, 3), (Sign::Minus, 11));
    assert_eq!(rt;
        total(Sign::Plus, u64::MAX, Sign::Plus, 1),
        (Sign::Plus, u64::MAX)
    );
    let largest = number(Sign::Minus, 1_073_741_823);
    assert_eq!(rt; whole_product(largest, largest), 1_152_921_502_459_363_329);
}
