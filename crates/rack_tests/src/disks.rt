use crate::units::{block, contents, put, rack_of, standing, taken, word};
use rack::{Rack, Ring, Unit, UnitFault};
use std::test::Fail;
use stores::Contents;
use word::{Sign, Word};

const FIRST: Unit = Unit { number: 8 };

const LAST: Unit = Unit { number: 15 };

#[test]
fn a_take_gives_the_block_asked_for(rt: HostRuntime) -> Result<(), Fail> {
    let blocks = [block(5), block(6), block(7)];
    for unit in [FIRST, LAST] {
        let mut stores = rack_of(rt.alloc(), unit, contents(3, &blocks, 0))?;
        assert_eq!(rt; taken(&mut stores, unit, 2), Ok(word(7)));
        assert_eq!(rt; taken(&mut stores, unit, 0), Ok(word(5)));
        assert_eq!(rt;
            taken(&mut stores, unit, 3),
            Err(UnitFault::NoBlock(unit, 3))
        );
        assert_eq!(rt;
            taken(&mut stores, unit, 4095),
            Err(UnitFault::NoBlock(unit, 4095))
        );
        assert_eq!(rt; stores.ask(unit), standing(3, 3, 0));
    }
    Ok(())
}

#[test]
fn a_damaged_block_is_not_taken_but_replaced(rt: HostRuntime) -> Result<(), Fail> {
    let mut stores = rack_of(rt.alloc(), LAST, contents(2, &[block(5), None], 0))?;
    let mut area = [word(8); 100];
    assert_eq!(rt;
        stores.take(LAST, 1, &mut area),
        Err(UnitFault::Damaged(LAST, 1))
    );
    assert_eq!(rt; area, [word(8); 100]);
    assert_eq!(rt; put(&mut stores, LAST, 1, 9), Ok(()));
    assert_eq!(rt; taken(&mut stores, LAST, 1), Ok(word(9)));
    assert_eq!(rt; taken(&mut stores, LAST, 0), Ok(word(5)));
    Ok(())
}

#[test]
fn a_put_replaces_the_block_asked_for(rt: HostRuntime) -> Result<(), Fail> {
    let blocks = [block(5), block(6), block(7)];
    let mut stores = rack_of(rt.alloc(), FIRST, contents(3, &blocks, 0))?;
    assert_eq!(rt; put(&mut stores, FIRST, 0, 1), Ok(()));
    assert_eq!(rt; put(&mut stores, FIRST, 2, 3), Ok(()));
    assert_eq!(rt;
        put(&mut stores, FIRST, 3, 4),
        Err(UnitFault::NoBlock(FIRST, 3))
    );
    assert_eq!(rt; taken(&mut stores, FIRST, 0), Ok(word(1)));
    assert_eq!(rt; taken(&mut stores, FIRST, 1), Ok(word(6)));
    assert_eq!(rt; taken(&mut stores, FIRST, 2), Ok(word(3)));
    assert_eq!(rt; stores.ask(FIRST), standing(3, 3, 0));
    Ok(())
}

#[test]
fn an_empty_disk_has_no_block(rt: HostRuntime) -> Result<(), Fail> {
    let mut stores = rack_of(rt.alloc(), FIRST, contents(0, &[], 0))?;
    assert_eq!(rt;
        taken(&mut stores, FIRST, 0),
        Err(UnitFault::NoBlock(FIRST, 0))
    );
    assert_eq!(rt;
        put(&mut stores, FIRST, 0, 1),
        Err(UnitFault::NoBlock(FIRST, 0))
    );
    assert_eq!(rt; stores.ask(FIRST), standing(0, 0, 0));
    Ok(())
}

#[test]
fn nothing_is_put_where_the_ring_is_out(rt: HostRuntime) -> Result<(), Fail> {
    let blocks = [block(5)];
    let out = Contents {
        ring: Ring::Out,
        ..contents(1, &blocks, 0)
    };
    let mut stores = rack_of(rt.alloc(), LAST, out)?;
    assert_eq!(rt;
        put(&mut stores, LAST, 0, 9),
        Err(UnitFault::NotAllowed(LAST))
    );
    assert_eq!(rt;
        put(&mut stores, LAST, 1, 9),
        Err(UnitFault::NotAllowed(LAST))
    );
    assert_eq!(rt; taken(&mut stores, LAST, 0), Ok(word(5)));
    Ok(())
}

#[test]
fn a_disk_takes_only_a_shift_by_0(rt: HostRuntime) -> Result<(), Fail> {
    let mut stores = rack_of(rt.alloc(), LAST, contents(1, &[block(5)], 0))?;
    let minus = |number| Word::wrapping(Sign::Minus, number);
    assert_eq!(rt; stores.shift(LAST, word(0)), Ok(()));
    assert_eq!(rt; stores.shift(LAST, minus(0)), Ok(()));
    assert_eq!(rt;
        stores.shift(LAST, word(1)),
        Err(UnitFault::NotAllowed(LAST))
    );
    assert_eq!(rt;
        stores.shift(LAST, minus(1)),
        Err(UnitFault::NotAllowed(LAST))
    );
    assert_eq!(rt; stores.ask(LAST), standing(1, 1, 0));
    Ok(())
}
