use crate::words::word;
use arith::{Pair, multiply};
use std::test::Fail;
use word::{Sign, Word};

fn number(sign: Sign, n: u64) -> Word {
    Word::wrapping(sign, n)
}

#[test]
fn products_fill_both_words(rt: HostRuntime) {
    let largest = number(Sign::Plus, 1_073_741_823);
    assert_eq!(rt;
        multiply(largest, largest),
        Pair {
            a: number(Sign::Plus, 1_073_741_822),
            x: number(Sign::Plus, 1)
        }
    );
    assert_eq!(rt;
        multiply(largest.negated(), largest),
        Pair {
            a: number(Sign::Minus, 1_073_741_822),
            x: number(Sign::Minus, 1)
        }
    );
    assert_eq!(rt;
        multiply(number(Sign::Minus, 112), number(Sign::Plus, 2)),
        Pair {
            a: number(Sign::Minus, 0),
            x: number(Sign::Minus, 224)
        }
    );
    assert_eq!(rt;
        multiply(number(Sign::Plus, 0), number(Sign::Minus, 5)),
        Pair {
            a: number(Sign::Minus, 0),
            x: number(Sign::Minus, 0)
        }
    );
    assert_eq!(rt;
        multiply(number(Sign::Minus, 0), number(Sign::Minus, 0)),
        Pair {
            a: number(Sign::Plus, 0),
            x: number(Sign::Plus, 0)
        }
    );
}

#[test]
fn quotients_and_remainders(rt: HostRuntime) -> Result<(), Fail> {
    let ax = Pair {
        a: number(Sign::Plus, 0),
        x: number(Sign::Plus, 17),
    };
    assert_eq!(rt;
        ax.divide(number(Sign::Plus, 3)),
        Some(Pair {
            a: number(Sign::Plus, 5),
            x: number(Sign::Plus, 2)
        })
    );
    // A is -0, X + 1235 0 3 1 with 1235 in two bytes, V - 0 0 0 2 0
    let ax = Pair {
        a: number(Sign::Minus, 0),
        x: word(Sign::Plus, [19, 19, 0, 3, 1])?,
    };
    assert_eq!(rt;
        ax.divide(word(Sign::Minus, [0, 0, 0, 2, 0])?),
        Some(Pair {
            a: number(Sign::Plus, 2_529_281),
            x: number(Sign::Minus, 65)
        })
    );
    let largest = number(Sign::Plus, 1_073_741_823);
    let ax = Pair {
        a: number(Sign::Plus, 1_073_741_822),
        x: largest,
    };
    assert_eq!(rt;
        ax.divide(largest.negated()),
        Some(Pair {
            a: largest.negated(),
            x: number(Sign::Plus, 1_073_741_822)
        })
    );
    Ok(())
}

// What is in A and X after DIV: both stay where there is no quotient.
fn after(ax: Pair, v: Word) -> Pair {
    ax.divide(v).unwrap_or(ax)
}

#[test]
fn a_quotient_too_large_leaves_both_words(rt: HostRuntime) {
    let x = number(Sign::Plus, 7);
    let ax = Pair {
        a: number(Sign::Minus, 3),
        x,
    };
    assert_eq!(rt; ax.divide(number(Sign::Plus, 3)), None);
    assert_eq!(rt; after(ax, number(Sign::Plus, 3)), ax);
    let ax = Pair {
        a: number(Sign::Minus, 0),
        x,
    };
    assert_eq!(rt; ax.divide(number(Sign::Minus, 0)), None);
    assert_eq!(rt; after(ax, number(Sign::Minus, 0)), ax);
}
