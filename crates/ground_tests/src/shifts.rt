use crate::words::word;
use arith::{Pair, Shift};
use std::test::Fail;
use word::Sign;

fn pair(first: [u8; 5], second: [u8; 5]) -> Result<Pair, Fail> {
    Ok(Pair {
        a: word(Sign::Plus, first)?,
        x: word(Sign::Minus, second)?,
    })
}

// A + 1 2 3 4 5 and X - 6 7 8 9 10.
fn ax() -> Result<Pair, Fail> {
    pair([1, 2, 3, 4, 5], [6, 7, 8, 9, 10])
}

const ZEROS: [u8; 5] = [0, 0, 0, 0, 0];

#[test]
fn shifts_of_a(rt: HostRuntime) -> Result<(), Fail> {
    let ax = ax()?;
    assert_eq!(rt; ax.shifted(Shift::Sla, 0), ax);
    assert_eq!(rt;
        ax.shifted(Shift::Sla, 2),
        pair([3, 4, 5, 0, 0], [6, 7, 8, 9, 10])?
    );
    assert_eq!(rt; ax.shifted(Shift::Sla, 5), pair(ZEROS, [6, 7, 8, 9, 10])?);
    assert_eq!(rt; ax.shifted(Shift::Sra, 0), ax);
    assert_eq!(rt;
        ax.shifted(Shift::Sra, 4),
        pair([0, 0, 0, 0, 1], [6, 7, 8, 9, 10])?
    );
    assert_eq!(rt; ax.shifted(Shift::Sra, 10), pair(ZEROS, [6, 7, 8, 9, 10])?);
    assert_eq!(rt;
        ax.shifted(Shift::Sra, 4095),
        pair(ZEROS, [6, 7, 8, 9, 10])?
    );
    Ok(())
}

#[test]
fn shifts_of_both(rt: HostRuntime) -> Result<(), Fail> {
    let ax = ax()?;
    assert_eq!(rt; ax.shifted(Shift::Slax, 0), ax);
    assert_eq!(rt; ax.shifted(Shift::Slax, 5), pair([6, 7, 8, 9, 10], ZEROS)?);
    assert_eq!(rt; ax.shifted(Shift::Slax, 10), pair(ZEROS, ZEROS)?);
    assert_eq!(rt; ax.shifted(Shift::Srax, 0), ax);
    assert_eq!(rt; ax.shifted(Shift::Srax, 5), pair(ZEROS, [1, 2, 3, 4, 5])?);
    assert_eq!(rt; ax.shifted(Shift::Srax, 9), pair(ZEROS, [0, 0, 0, 0, 1])?);
    assert_eq!(rt; ax.shifted(Shift::Srax, 4095), pair(ZEROS, ZEROS)?);
    Ok(())
}

#[test]
fn rotations(rt: HostRuntime) -> Result<(), Fail> {
    let ax = ax()?;
    assert_eq!(rt; ax.shifted(Shift::Slc, 0), ax);
    assert_eq!(rt;
        ax.shifted(Shift::Slc, 1),
        pair([2, 3, 4, 5, 6], [7, 8, 9, 10, 1])?
    );
    assert_eq!(rt; ax.shifted(Shift::Slc, 10), ax);
    assert_eq!(rt;
        ax.shifted(Shift::Slc, 4095),
        pair([6, 7, 8, 9, 10], [1, 2, 3, 4, 5])?
    );
    assert_eq!(rt; ax.shifted(Shift::Src, 0), ax);
    assert_eq!(rt;
        ax.shifted(Shift::Src, 1),
        pair([10, 1, 2, 3, 4], [5, 6, 7, 8, 9])?
    );
    assert_eq!(rt;
        ax.shifted(Shift::Src, 5),
        pair([6, 7, 8, 9, 10], [1, 2, 3, 4, 5])?
    );
    assert_eq!(rt;
        ax.shifted(Shift::Src, 4095),
        pair([6, 7, 8, 9, 10], [1, 2, 3, 4, 5])?
    );
    Ok(())
}
