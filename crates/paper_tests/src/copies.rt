use crate::units::{PRINTER, PUNCH, READER, columns, standing};
use paper::{CardReader, Device, Tray, copy_card};
use rack::{Rack, Ring, UnitFault};
use racks::SideBySide;
use std::alloc::Global;

// A reader of a text and a punch, side by side.
fn reader_and_punch(
    heap: Global,
    text: &[u8],
    capacity: u16,
    ring: Ring,
) -> SideBySide<CardReader<'_>, Tray> {
    let punch = Tray::new(heap, Device::Punch, capacity, ring, 100);
    SideBySide::new(CardReader::new(text, 200, 80), 17, punch)
}

#[test]
fn a_card_is_punched_as_it_was_read(rt: HostRuntime) {
    let mut rack = reader_and_punch(rt.alloc(), b" START  ~[]'\n\n9", 200, Ring::In);
    assert_eq!(rt; copy_card(&mut rack), Ok(()));
    assert_eq!(rt; copy_card(&mut rack), Ok(()));
    assert_eq!(rt; copy_card(&mut rack), Ok(()));
    assert!(rt; rack.text(PUNCH, 0) == columns(b" START  ~[]'"));
    assert!(rt; rack.text(PUNCH, 1) == columns(b""));
    assert!(rt; rack.text(PUNCH, 2) == columns(b"9"));
    assert_eq!(rt; rack.ask(READER), standing(200, 3, 3));
    assert_eq!(rt; rack.ask(PUNCH), standing(200, 3, 0));
    assert_eq!(rt; rack.ask(PRINTER), None);
    assert_eq!(rt; copy_card(&mut rack), Err(UnitFault::NoBlock(READER, 3)));
    assert_eq!(rt; rack.ask(PUNCH), standing(200, 3, 0));
}

#[test]
fn a_damaged_card_is_not_punched(rt: HostRuntime) {
    let mut rack = reader_and_punch(rt.alloc(), b"a\nB", 200, Ring::In);
    assert_eq!(rt; copy_card(&mut rack), Err(UnitFault::Damaged(READER, 0)));
    assert_eq!(rt; rack.ask(READER), standing(200, 2, 0));
    assert_eq!(rt; rack.ask(PUNCH), standing(200, 0, 0));
}

#[test]
fn a_card_that_is_not_punched_is_read_all_the_same(rt: HostRuntime) {
    let mut full = reader_and_punch(rt.alloc(), b"A\nB", 0, Ring::In);
    assert_eq!(rt; copy_card(&mut full), Err(UnitFault::NoBlock(PUNCH, 0)));
    assert_eq!(rt; full.ask(READER), standing(200, 2, 1));
    let mut out = reader_and_punch(rt.alloc(), b"A\nB", 1, Ring::Out);
    assert_eq!(rt; copy_card(&mut out), Err(UnitFault::NotAllowed(PUNCH)));
    assert_eq!(rt; out.ask(READER), standing(200, 2, 1));
    let mut none = reader_and_punch(rt.alloc(), b"A\nB", 1001, Ring::In);
    assert_eq!(rt; copy_card(&mut none), Err(UnitFault::Absent(PUNCH)));
    assert_eq!(rt; none.ask(READER), standing(200, 2, 1));
}
