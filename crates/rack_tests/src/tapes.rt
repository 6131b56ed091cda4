use crate::units::{block, contents, put, rack_of, standing, taken, word};
use rack::{Rack, Ring, Unit, UnitFault};
use std::test::Fail;
use stores::Contents;
use word::{Sign, Word};

const FIRST: Unit = Unit { number: 0 };

const LAST: Unit = Unit { number: 7 };

#[test]
fn a_take_gives_the_next_block(rt: HostRuntime) -> Result<(), Fail> {
    for unit in [FIRST, LAST] {
        let mut stores = rack_of(rt.alloc(), unit, contents(3, &[block(5), block(6)], 0))?;
        assert_eq!(rt; taken(&mut stores, unit, 9), Ok(word(5)));
        assert_eq!(rt; stores.ask(unit), standing(3, 2, 1));
        assert_eq!(rt; taken(&mut stores, unit, 0), Ok(word(6)));
        assert_eq!(rt; stores.ask(unit), standing(3, 2, 2));
        assert_eq!(rt;
            taken(&mut stores, unit, 0),
            Err(UnitFault::NoBlock(unit, 2))
        );
        assert_eq!(rt; stores.ask(unit), standing(3, 2, 2));
    }
    Ok(())
}

#[test]
fn a_damaged_block_is_not_taken(rt: HostRuntime) -> Result<(), Fail> {
    let mut stores = rack_of(rt.alloc(), LAST, contents(2, &[block(5), None], 1))?;
    let mut area = [word(8); 100];
    assert_eq!(rt;
        stores.take(LAST, 0, &mut area),
        Err(UnitFault::Damaged(LAST, 1))
    );
    assert_eq!(rt; area, [word(8); 100]);
    assert_eq!(rt; stores.ask(LAST), standing(2, 2, 1));
    Ok(())
}

#[test]
fn an_empty_tape_has_no_block(rt: HostRuntime) -> Result<(), Fail> {
    let mut stores = rack_of(rt.alloc(), FIRST, contents(0, &[], 0))?;
    assert_eq!(rt;
        taken(&mut stores, FIRST, 0),
        Err(UnitFault::NoBlock(FIRST, 0))
    );
    assert_eq!(rt;
        put(&mut stores, FIRST, 0, 1),
        Err(UnitFault::NoBlock(FIRST, 0))
    );
    assert_eq!(rt; stores.shift(FIRST, word(3)), Ok(()));
    assert_eq!(rt; stores.ask(FIRST), standing(0, 0, 0));
    Ok(())
}

#[test]
fn a_put_at_the_end_appends_up_to_the_capacity(rt: HostRuntime) -> Result<(), Fail> {
    let mut stores = rack_of(rt.alloc(), LAST, contents(2, &[], 0))?;
    assert_eq!(rt; put(&mut stores, LAST, 0, 1), Ok(()));
    assert_eq!(rt; stores.ask(LAST), standing(2, 1, 1));
    assert_eq!(rt; put(&mut stores, LAST, 0, 2), Ok(()));
    assert_eq!(rt; stores.ask(LAST), standing(2, 2, 2));
    assert_eq!(rt;
        put(&mut stores, LAST, 0, 3),
        Err(UnitFault::NoBlock(LAST, 2))
    );
    assert_eq!(rt; stores.ask(LAST), standing(2, 2, 2));
    assert_eq!(rt; stores.shift(LAST, word(0)), Ok(()));
    assert_eq!(rt; taken(&mut stores, LAST, 0), Ok(word(1)));
    assert_eq!(rt; taken(&mut stores, LAST, 0), Ok(word(2)));
    Ok(())
}

#[test]
fn a_put_before_the_end_replaces_one_block(rt: HostRuntime) -> Result<(), Fail> {
    let blocks = [block(5), None, block(7)];
    let mut stores = rack_of(rt.alloc(), FIRST, contents(3, &blocks, 1))?;
    assert_eq!(rt; put(&mut stores, FIRST, 0, 9), Ok(()));
    assert_eq!(rt; stores.ask(FIRST), standing(3, 3, 2));
    assert_eq!(rt; taken(&mut stores, FIRST, 0), Ok(word(7)));
    assert_eq!(rt; stores.shift(FIRST, word(0)), Ok(()));
    assert_eq!(rt; taken(&mut stores, FIRST, 0), Ok(word(5)));
    assert_eq!(rt; taken(&mut stores, FIRST, 0), Ok(word(9)));
    Ok(())
}

#[test]
fn nothing_is_put_where_the_ring_is_out(rt: HostRuntime) -> Result<(), Fail> {
    let blocks = [block(5)];
    for position in [0u16, 1] {
        let out = Contents {
            ring: Ring::Out,
            ..contents(1, &blocks, position)
        };
        let mut stores = rack_of(rt.alloc(), FIRST, out)?;
        assert_eq!(rt;
            put(&mut stores, FIRST, 0, 9),
            Err(UnitFault::NotAllowed(FIRST))
        );
        assert_eq!(rt; stores.shift(FIRST, word(0)), Ok(()));
        assert_eq!(rt; taken(&mut stores, FIRST, 0), Ok(word(5)));
        assert_eq!(rt;
            taken(&mut stores, FIRST, 0),
            Err(UnitFault::NoBlock(FIRST, 1))
        );
    }
    Ok(())
}

#[test]
fn a_tape_stays_between_its_ends(rt: HostRuntime) -> Result<(), Fail> {
    let blocks = [block(5), block(6), block(7)];
    for (sign, number, position) in [
        (Sign::Plus, 0, 0),
        (Sign::Minus, 0, 0),
        (Sign::Plus, 1, 3),
        (Sign::Plus, 2, 3),
        (Sign::Minus, 1, 1),
        (Sign::Minus, 2, 0),
        (Sign::Minus, 3, 0),
        (Sign::Plus, 0x3fff_ffff, 3),
        (Sign::Minus, 0x3fff_ffff, 0),
    ] {
        let mut stores = rack_of(rt.alloc(), LAST, contents(9, &blocks, 2))?;
        assert_eq!(rt; stores.shift(LAST, Word::wrapping(sign, number)), Ok(()));
        assert_eq!(rt; stores.ask(LAST), standing(9, 3, position));
    }
    Ok(())
}

#[test]
fn a_short_area_takes_and_gives_what_it_has(rt: HostRuntime) -> Result<(), Fail> {
    let mut stores = rack_of(rt.alloc(), FIRST, contents(1, &[], 0))?;
    assert_eq!(rt; stores.put(FIRST, 0, &[word(1), word(2)]), Ok(()));
    assert_eq!(rt; stores.shift(FIRST, word(0)), Ok(()));
    let mut area = [word(8); 101];
    assert_eq!(rt; stores.take(FIRST, 0, &mut area), Ok(()));
    assert_eq!(rt; [area[0], area[1], area[2]], [word(1), word(2), word(0)]);
    assert_eq!(rt; area[99], word(0));
    assert_eq!(rt; area[100], word(8));
    assert_eq!(rt; stores.shift(FIRST, word(0)), Ok(()));
    let mut short = [word(8)];
    assert_eq!(rt; stores.take(FIRST, 0, &mut short), Ok(()));
    assert_eq!(rt; short, [word(1)]);
    Ok(())
}
