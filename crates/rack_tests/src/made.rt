use crate::units::{block, contents, put, rack_of, standing, taken, word};
use rack::{Rack, Ring, Standing, Unit};
use std::test::Fail;
use stores::{Contents, NotMade, Stores};

const TAPE: Unit = Unit { number: 3 };

const DISK: Unit = Unit { number: 12 };

#[test]
fn a_tape_is_absent_where_its_contents_are_not_allowed(rt: HostRuntime) -> Result<(), Fail> {
    let blocks = [block(5), None];
    for wrong in [
        contents(1001, &blocks, 0),
        contents(65_535, &blocks, 0),
        contents(1, &blocks, 0),
        contents(2, &blocks, 3),
        contents(0, &[], 1),
    ] {
        let mut stores = rack_of(rt.alloc(), TAPE, contents(2, &blocks, 2))?;
        assert_eq!(rt; stores.ask(TAPE), standing(2, 2, 2));
        assert_eq!(rt;
            stores.install(rt.alloc(), TAPE, wrong),
            Err(NotMade::NotAllowed)
        );
        assert_eq!(rt; stores.ask(TAPE), None);
    }
    Ok(())
}

#[test]
fn a_disk_is_absent_where_its_contents_are_not_allowed(rt: HostRuntime) -> Result<(), Fail> {
    let blocks = [block(5), None];
    for wrong in [
        contents(1001, &blocks, 0),
        contents(1, &blocks, 0),
        contents(3, &blocks, 0),
        contents(2, &blocks, 1),
        contents(0, &[], 1),
    ] {
        let mut stores = rack_of(rt.alloc(), DISK, contents(2, &blocks, 0))?;
        assert_eq!(rt; stores.ask(DISK), standing(2, 2, 0));
        assert_eq!(rt;
            stores.install(rt.alloc(), DISK, wrong),
            Err(NotMade::NotAllowed)
        );
        assert_eq!(rt; stores.ask(DISK), None);
    }
    Ok(())
}

#[test]
fn a_thousand_blocks_are_allowed(rt: HostRuntime) -> Result<(), Fail> {
    let mut stores = rack_of(rt.alloc(), TAPE, contents(1000, &[], 0))?;
    assert_eq!(rt; stores.ask(TAPE), standing(1000, 0, 0));
    let full = vec![in rt.alloc(); block(4); 1000]?;
    stores.install(rt.alloc(), DISK, contents(1000, &full, 0))?;
    assert_eq!(rt; stores.ask(DISK), standing(1000, 1000, 0));
    assert_eq!(rt; taken(&mut stores, DISK, 999), Ok(word(4)));
    Ok(())
}

#[test]
fn other_numbers_are_no_store(rt: HostRuntime) -> Result<(), Fail> {
    let mut stores = rack_of(rt.alloc(), TAPE, contents(1, &[block(5)], 0))?;
    for number in [16u8, 17, 18, 19, 255] {
        let unit = Unit { number };
        let made = stores.install(rt.alloc(), unit, contents(1, &[block(6)], 0));
        assert_eq!(rt; made, Err(NotMade::NoStore));
        assert_eq!(rt; stores.ask(unit), None);
    }
    assert_eq!(rt; taken(&mut stores, TAPE, 0), Ok(word(5)));
    Ok(())
}

#[test]
fn units_are_apart(rt: HostRuntime) -> Result<(), Fail> {
    let mut stores = Stores::new();
    for number in [0u8, 7, 8, 15] {
        let unit = Unit { number };
        let blocks = [block(u64::from(number)), block(1)];
        stores.install(rt.alloc(), unit, contents(2, &blocks, 0))?;
    }
    assert_eq!(rt; put(&mut stores, Unit { number: 7 }, 0, 40), Ok(()));
    assert_eq!(rt; put(&mut stores, Unit { number: 8 }, 0, 41), Ok(()));
    assert_eq!(rt; stores.ask(Unit { number: 0 }), standing(2, 2, 0));
    assert_eq!(rt; taken(&mut stores, Unit { number: 0 }, 0), Ok(word(0)));
    assert_eq!(rt; taken(&mut stores, Unit { number: 7 }, 0), Ok(word(1)));
    assert_eq!(rt; taken(&mut stores, Unit { number: 8 }, 0), Ok(word(41)));
    assert_eq!(rt; taken(&mut stores, Unit { number: 15 }, 0), Ok(word(15)));
    Ok(())
}

#[test]
fn a_unit_made_anew_has_the_new_contents(rt: HostRuntime) -> Result<(), Fail> {
    let mut stores = rack_of(rt.alloc(), TAPE, contents(9, &[block(5)], 1))?;
    let blocks = [block(6)];
    let out = Contents {
        ring: Ring::Out,
        ..contents(1, &blocks, 0)
    };
    stores.install(rt.alloc(), TAPE, out)?;
    let stands = Standing {
        capacity: 1,
        blocks: 1,
        position: 0,
        ring: Ring::Out,
    };
    assert_eq!(rt; stores.ask(TAPE), Some(stands));
    assert_eq!(rt; taken(&mut stores, TAPE, 0), Ok(word(6)));
    Ok(())
}
