use crate::units::{block, contents, put, standing, taken, word};
use rack::{Rack, Request, Transfer, Unit, UnitFault};
use racks::SideBySide;
use std::alloc::Global;
use std::test::Fail;
use stores::{Contents, Stores};

const TAPE: Unit = Unit { number: 0 };

const DISK: Unit = Unit { number: 15 };

// A rack of a tape and a disk, whose blocks are one number and whose times are another.
fn half(heap: Global, number: u64, time: u16) -> Result<Stores, Fail> {
    let mut stores = Stores::new();
    let blocks = [block(number)];
    let made = Contents {
        time,
        ..contents(1, &blocks, 0)
    };
    for unit in [TAPE, DISK] {
        stores.install(heap, unit, made)?;
    }
    Ok(stores)
}

fn request(unit: Unit) -> Request {
    Request {
        unit,
        transfer: Transfer::Take(0),
    }
}

#[test]
fn at_0_all_units_are_the_right_ones(rt: HostRuntime) -> Result<(), Fail> {
    let left = half(rt.alloc(), 1, 10)?;
    let mut both = SideBySide::new(left, 0, half(rt.alloc(), 2, 20)?);
    assert_eq!(rt; both.time(request(TAPE)), 20);
    assert_eq!(rt; taken(&mut both, TAPE, 0), Ok(word(2)));
    assert_eq!(rt; taken(&mut both, DISK, 0), Ok(word(2)));
    Ok(())
}

#[test]
fn past_the_last_unit_all_are_the_left_ones(rt: HostRuntime) -> Result<(), Fail> {
    let left = half(rt.alloc(), 1, 10)?;
    let mut both = SideBySide::new(left, 255, half(rt.alloc(), 2, 20)?);
    assert_eq!(rt; both.time(request(DISK)), 10);
    assert_eq!(rt; taken(&mut both, TAPE, 0), Ok(word(1)));
    assert_eq!(rt; taken(&mut both, DISK, 0), Ok(word(1)));
    Ok(())
}

#[test]
fn the_split_is_the_first_unit_of_the_right(rt: HostRuntime) -> Result<(), Fail> {
    let left = half(rt.alloc(), 1, 10)?;
    let mut both = SideBySide::new(left, 15, half(rt.alloc(), 2, 20)?);
    assert_eq!(rt; both.time(request(TAPE)), 10);
    assert_eq!(rt; both.time(request(DISK)), 20);
    assert_eq!(rt; put(&mut both, DISK, 0, 7), Ok(()));
    assert_eq!(rt; taken(&mut both, DISK, 0), Ok(word(7)));
    assert_eq!(rt; taken(&mut both, TAPE, 0), Ok(word(1)));
    assert_eq!(rt; both.shift(DISK, word(1)), Err(UnitFault::NotAllowed(DISK)));
    assert_eq!(rt; both.shift(TAPE, word(0)), Ok(()));
    assert_eq!(rt; both.ask(TAPE), standing(1, 1, 0));
    Ok(())
}

#[test]
fn past_the_split_a_left_unit_is_not_seen(rt: HostRuntime) -> Result<(), Fail> {
    let left = half(rt.alloc(), 1, 10)?;
    let mut both = SideBySide::new(left, 8, Stores::new());
    assert_eq!(rt; both.ask(DISK), None);
    assert_eq!(rt; taken(&mut both, DISK, 0), Err(UnitFault::Absent(DISK)));
    assert_eq!(rt; both.ask(TAPE), standing(1, 1, 0));
    assert_eq!(rt; both.text(DISK, 0), [b' '; 120]);
    assert_eq!(rt; both.text(TAPE, 0), [b' '; 120]);
    Ok(())
}
