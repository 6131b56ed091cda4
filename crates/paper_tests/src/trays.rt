use crate::units::{DISK, NONE, PRINTER, PUNCH, READER, columns, minus, plus, standing};
use paper::{Device, Tray};
use rack::{Rack, Request, Ring, Standing, Transfer, Unit, UnitFault};

// The devices with their units.
const DEVICES: [(Device, Unit); 2] = [(Device::Punch, PUNCH), (Device::Printer, PRINTER)];

#[test]
fn each_put_is_one_more_line(rt: HostRuntime) {
    for (device, unit) in DEVICES {
        let mut tray = Tray::new(rt.alloc(), device, 2, Ring::In, 60);
        assert_eq!(rt; tray.ask(unit), standing(2, 0, 0));
        assert_eq!(rt; tray.put(unit, 0, &[plus(16_777_216)]), Ok(()));
        assert_eq!(rt; tray.ask(unit), standing(2, 1, 0));
        assert_eq!(rt; tray.put(unit, 0, &[plus(0), plus(8192)]), Ok(()));
        assert_eq!(rt; tray.ask(unit), standing(2, 2, 0));
        assert_eq!(rt;
            tray.put(unit, 0, &[plus(1)]),
            Err(UnitFault::NoBlock(unit, 2))
        );
        assert_eq!(rt; tray.ask(unit), standing(2, 2, 0));
        assert!(rt; tray.text(unit, 0) == columns(b"A"));
        assert!(rt; tray.text(unit, 1) == columns(b"       B"));
    }
}

#[test]
fn the_text_of_no_block_is_blank(rt: HostRuntime) {
    for (device, unit) in DEVICES {
        let mut tray = Tray::new(rt.alloc(), device, 1, Ring::In, 60);
        assert!(rt; tray.text(unit, 0) == columns(b""));
        assert_eq!(rt; tray.put(unit, 0, &[plus(16_777_216)]), Ok(()));
        assert!(rt; tray.text(unit, 0) == columns(b"A"));
        assert!(rt; tray.text(unit, 1) == columns(b""));
        assert!(rt; tray.text(unit, 65_535) == columns(b""));
        for other in [DISK, READER, NONE] {
            assert!(rt; tray.text(other, 0) == columns(b""));
        }
    }
    let mut tray = Tray::new(rt.alloc(), Device::Punch, 1, Ring::In, 60);
    assert_eq!(rt; tray.put(PUNCH, 0, &[plus(16_777_216)]), Ok(()));
    assert!(rt; tray.text(PRINTER, 0) == columns(b""));
}

#[test]
fn signs_are_left_out_and_bytes_without_character_are_blanks(rt: HostRuntime) {
    // The bytes 55 56 63 0 1 of a minus word, and 39 in each byte of the next.
    let words = [minus(937_684_993), plus(664_697_319)];
    for (device, unit) in DEVICES {
        let mut tray = Tray::new(rt.alloc(), device, 1, Ring::In, 60);
        assert_eq!(rt; tray.put(unit, 0, &words), Ok(()));
        assert!(rt; tray.text(unit, 0) == columns(b"'   A99999"));
    }
}

#[test]
fn a_line_has_the_words_of_a_block(rt: HostRuntime) {
    let mut punch = Tray::new(rt.alloc(), Device::Punch, 2, Ring::In, 100);
    let mut printer = Tray::new(rt.alloc(), Device::Printer, 2, Ring::In, 60);
    let area = [plus(17_043_521); 30];
    assert_eq!(rt; punch.put(PUNCH, 0, &area), Ok(()));
    assert_eq!(rt; printer.put(PRINTER, 0, &area), Ok(()));
    assert!(rt; punch.text(PUNCH, 0) == columns(&[b'A'; 80]));
    assert!(rt; printer.text(PRINTER, 0) == [b'A'; 120]);
    assert_eq!(rt; punch.put(PUNCH, 0, &[]), Ok(()));
    assert_eq!(rt; printer.put(PRINTER, 0, &[]), Ok(()));
    assert!(rt; punch.text(PUNCH, 1) == columns(b""));
    assert!(rt; printer.text(PRINTER, 1) == columns(b""));
}

#[test]
fn nothing_is_put_where_the_ring_is_out(rt: HostRuntime) {
    for (device, unit) in DEVICES {
        for capacity in [0, 1] {
            let mut tray = Tray::new(rt.alloc(), device, capacity, Ring::Out, 60);
            assert_eq!(rt;
                tray.put(unit, 0, &[plus(1)]),
                Err(UnitFault::NotAllowed(unit))
            );
            let empty = Standing {
                capacity,
                blocks: 0,
                position: 0,
                ring: Ring::Out,
            };
            assert_eq!(rt; tray.ask(unit), Some(empty));
        }
        let mut full = Tray::new(rt.alloc(), device, 0, Ring::In, 60);
        assert_eq!(rt;
            full.put(unit, 0, &[plus(1)]),
            Err(UnitFault::NoBlock(unit, 0))
        );
    }
}

#[test]
fn a_tray_takes_only_puts(rt: HostRuntime) {
    for (device, unit) in DEVICES {
        for ring in [Ring::In, Ring::Out] {
            let mut tray = Tray::new(rt.alloc(), device, 1, ring, 60);
            let mut area = [plus(1); 24];
            assert_eq!(rt;
                tray.take(unit, 0, &mut area),
                Err(UnitFault::NotAllowed(unit))
            );
            assert_eq!(rt; area, [plus(1); 24]);
            assert_eq!(rt; tray.shift(unit, plus(0)), Err(UnitFault::NotAllowed(unit)));
        }
    }
}

#[test]
fn other_units_are_absent(rt: HostRuntime) {
    for (device, unit) in DEVICES {
        let mut tray = Tray::new(rt.alloc(), device, 1, Ring::In, 60);
        let mut area = [plus(1); 24];
        for other in [DISK, READER, PUNCH, PRINTER, NONE] {
            if other != unit {
                assert_eq!(rt; tray.ask(other), None);
                assert_eq!(rt; tray.put(other, 0, &area), Err(UnitFault::Absent(other)));
                assert_eq!(rt;
                    tray.take(other, 0, &mut area),
                    Err(UnitFault::Absent(other))
                );
                assert_eq!(rt; tray.shift(other, plus(1)), Err(UnitFault::Absent(other)));
            }
        }
        assert_eq!(rt; area, [plus(1); 24]);
        assert_eq!(rt; tray.ask(unit), standing(1, 0, 0));
    }
}

#[test]
fn a_tray_that_the_rules_do_not_allow_is_absent(rt: HostRuntime) {
    for (device, unit) in DEVICES {
        for capacity in [1001, 65_535] {
            let mut tray = Tray::new(rt.alloc(), device, capacity, Ring::In, 60);
            let mut area = [plus(1); 24];
            assert_eq!(rt; tray.ask(unit), None);
            assert_eq!(rt; tray.put(unit, 0, &area), Err(UnitFault::Absent(unit)));
            assert_eq!(rt; tray.take(unit, 0, &mut area), Err(UnitFault::Absent(unit)));
            assert_eq!(rt; tray.shift(unit, plus(0)), Err(UnitFault::Absent(unit)));
            assert!(rt; tray.text(unit, 0) == columns(b""));
        }
    }
}

#[test]
fn a_tray_has_room_for_a_thousand_lines(rt: HostRuntime) {
    let mut tray = Tray::new(rt.alloc(), Device::Printer, 1000, Ring::In, 60);
    for _ in 0..1000 {
        assert_eq!(rt; tray.put(PRINTER, 0, &[plus(16_777_216)]), Ok(()));
    }
    assert_eq!(rt; tray.ask(PRINTER), standing(1000, 1000, 0));
    assert!(rt; tray.text(PRINTER, 999) == columns(b"A"));
    assert_eq!(rt;
        tray.put(PRINTER, 0, &[]),
        Err(UnitFault::NoBlock(PRINTER, 1000))
    );
}

#[test]
fn the_time_told_is_the_trays(rt: HostRuntime) {
    let put = Request {
        unit: PUNCH,
        transfer: Transfer::Put(0),
    };
    let mut tray = Tray::new(rt.alloc(), Device::Punch, 1, Ring::In, 100);
    assert_eq!(rt; tray.time(put), 100);
    assert_eq!(rt; tray.put(PUNCH, 0, &[]), Ok(()));
    assert_eq!(rt; tray.time(put), 100);
    assert_eq!(rt; tray.ask(PUNCH), standing(1, 1, 0));
}

#[test]
fn the_longest_time_is_told(rt: HostRuntime) {
    let put = Request {
        unit: PRINTER,
        transfer: Transfer::Put(0),
    };
    let mut tray = Tray::new(rt.alloc(), Device::Printer, 1, Ring::In, 65_535);
    assert_eq!(rt; tray.time(put), 65_535);
}
