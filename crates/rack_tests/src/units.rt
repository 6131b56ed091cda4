use rack::{Kind, Rack, Request, Ring, Standing, Transfer, Unit, UnitFault};
use std::alloc::Global;
use std::test::Fail;
use stores::{Block, Contents, Stores};
use word::{Sign, Word};

// A word by its number.
pub(crate) fn word(number: u64) -> Word {
    Word::wrapping(Sign::Plus, number)
}

// A block of a hundred times the same word.
pub(crate) fn block(number: u64) -> Option<Block> {
    Some(Block {
        words: [word(number); 100],
    })
}

// Contents with the ring in and the time 20.
pub(crate) fn contents(capacity: u16, blocks: &[Option<Block>], position: u16) -> Contents<'_> {
    Contents {
        capacity,
        blocks,
        position,
        ring: Ring::In,
        time: 20,
    }
}

// A rack with one unit.
pub(crate) fn rack_of(heap: Global, unit: Unit, contents: Contents<'_>) -> Result<Stores, Fail> {
    let mut stores = Stores::new();
    stores.install(heap, unit, contents)?;
    Ok(stores)
}

// How a unit with the ring in stands.
pub(crate) fn standing(capacity: u16, blocks: u16, position: u16) -> Option<Standing> {
    Some(Standing {
        capacity,
        blocks,
        position,
        ring: Ring::In,
    })
}

// The first word that a Take gives.
pub(crate) fn taken<R: Rack>(rack: &mut R, unit: Unit, block: u16) -> Result<Word, UnitFault> {
    let mut area = [word(0); 100];
    rack.take(unit, block, &mut area)?;
    Ok(area[0])
}

// Puts a hundred times the same word.
pub(crate) fn put<R: Rack>(
    rack: &mut R,
    unit: Unit,
    block: u16,
    number: u64,
) -> Result<(), UnitFault> {
    rack.put(unit, block, &[word(number); 100])
}

#[test]
fn each_number_has_its_kind(rt: HostRuntime) {
    assert_eq!(rt; Unit { number: 0 }.kind(), Some(Kind::Tape));
    assert_eq!(rt; Unit { number: 7 }.kind(), Some(Kind::Tape));
    assert_eq!(rt; Unit { number: 8 }.kind(), Some(Kind::Disk));
    assert_eq!(rt; Unit { number: 15 }.kind(), Some(Kind::Disk));
    assert_eq!(rt; Unit { number: 16 }.kind(), Some(Kind::Reader));
    assert_eq!(rt; Unit { number: 17 }.kind(), Some(Kind::Punch));
    assert_eq!(rt; Unit { number: 18 }.kind(), Some(Kind::Printer));
    assert_eq!(rt; Unit { number: 19 }.kind(), None);
    assert_eq!(rt; Unit { number: 63 }.kind(), None);
}

#[test]
fn each_kind_has_its_block(rt: HostRuntime) {
    assert_eq!(rt; Kind::Tape.block_size(), 100);
    assert_eq!(rt; Kind::Disk.block_size(), 100);
    assert_eq!(rt; Kind::Reader.block_size(), 16);
    assert_eq!(rt; Kind::Punch.block_size(), 16);
    assert_eq!(rt; Kind::Printer.block_size(), 24);
}

#[test]
fn rejections_have_the_numbers_14_to_17(rt: HostRuntime) {
    let unit = Unit { number: 3 };
    assert_eq!(rt; UnitFault::Absent(unit).number(), 14);
    assert_eq!(rt; UnitFault::NotAllowed(unit).number(), 15);
    assert_eq!(rt; UnitFault::NoBlock(unit, 9).number(), 16);
    assert_eq!(rt; UnitFault::Damaged(unit, 9).number(), 17);
}

#[test]
fn absent_units_reject_all(rt: HostRuntime) {
    let mut stores = Stores::new();
    for number in [0u8, 7, 8, 15, 16, 17, 18, 19, 255] {
        let unit = Unit { number };
        assert_eq!(rt; stores.ask(unit), None);
        assert_eq!(rt; taken(&mut stores, unit, 0), Err(UnitFault::Absent(unit)));
        assert_eq!(rt; put(&mut stores, unit, 0, 1), Err(UnitFault::Absent(unit)));
        assert_eq!(rt; stores.shift(unit, word(0)), Err(UnitFault::Absent(unit)));
        assert_eq!(rt; stores.shift(unit, word(1)), Err(UnitFault::Absent(unit)));
    }
}

#[test]
fn a_unit_tells_the_time_that_it_is_made_with(rt: HostRuntime) -> Result<(), Fail> {
    let tape = Unit { number: 7 };
    let disk = Unit { number: 8 };
    let mut stores = Stores::new();
    let long = Contents {
        time: 65_535,
        ..contents(1, &[], 0)
    };
    stores.install(rt.alloc(), tape, long)?;
    stores.install(rt.alloc(), disk, contents(1, &[block(0)], 0))?;
    for transfer in [
        Transfer::Take(0),
        Transfer::Put(0),
        Transfer::Shift(word(0)),
    ] {
        let of_tape = Request {
            unit: tape,
            transfer,
        };
        let of_disk = Request {
            unit: disk,
            transfer,
        };
        assert_eq!(rt; stores.time(of_tape), 65_535);
        assert_eq!(rt; stores.time(of_disk), 20);
    }
    assert_eq!(rt; put(&mut stores, tape, 0, 1), Ok(()));
    assert_eq!(rt;
        stores.time(Request {
            unit: tape,
            transfer: Transfer::Take(0)
        }),
        65_535
    );
    Ok(())
}

#[test]
fn tapes_and_disks_have_no_text(rt: HostRuntime) -> Result<(), Fail> {
    let unit = Unit { number: 0 };
    let stores = rack_of(rt.alloc(), unit, contents(1, &[block(1)], 0))?;
    assert_eq!(rt; stores.text(unit, 0), [b' '; 120]);
    assert_eq!(rt; stores.text(unit, 1), [b' '; 120]);
    assert_eq!(rt; stores.text(Unit { number: 18 }, 0), [b' '; 120]);
    Ok(())
}
