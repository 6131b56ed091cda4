use crate::units::{DISK, NONE, PUNCH, READER, minus, plus, standing};
use paper::CardReader;
use rack::{Rack, Request, Transfer, UnitFault};

#[test]
fn cards_are_read_one_after_the_other(rt: HostRuntime) {
    let mut reader = CardReader::new(b"A\n\n  7  B", 3, 80);
    let mut area = [minus(9); 16];
    assert_eq!(rt; reader.ask(READER), standing(3, 3, 0));
    assert_eq!(rt; reader.take(READER, 0, &mut area), Ok(()));
    let mut first = [plus(0); 16];
    first[0] = plus(16_777_216);
    assert_eq!(rt; area, first);
    assert_eq!(rt; reader.take(READER, 2, &mut area), Ok(()));
    assert_eq!(rt; area, [plus(0); 16]);
    assert_eq!(rt; reader.ask(READER), standing(3, 3, 2));
    assert_eq!(rt; reader.take(READER, 0, &mut area), Ok(()));
    let mut last = [plus(0); 16];
    last[0] = plus(151_552);
    last[1] = plus(33_554_432);
    assert_eq!(rt; area, last);
    assert_eq!(rt; reader.ask(READER), standing(3, 3, 3));
    assert_eq!(rt;
        reader.take(READER, 0, &mut area),
        Err(UnitFault::NoBlock(READER, 3))
    );
    assert_eq!(rt; area, last);
    assert_eq!(rt; reader.ask(READER), standing(3, 3, 3));
}

#[test]
fn a_reader_of_no_cards_has_no_block(rt: HostRuntime) {
    let mut reader = CardReader::new(b"", 0, 80);
    let mut area = [plus(1); 16];
    assert_eq!(rt; reader.ask(READER), standing(0, 0, 0));
    assert_eq!(rt;
        reader.take(READER, 0, &mut area),
        Err(UnitFault::NoBlock(READER, 0))
    );
    assert_eq!(rt; area, [plus(1); 16]);
}

#[test]
fn a_damaged_card_stays_where_it_is(rt: HostRuntime) {
    let mut reader = CardReader::new(b"A\nb\nC", 200, 80);
    let mut area = [plus(0); 16];
    assert_eq!(rt; reader.take(READER, 0, &mut area), Ok(()));
    let read = area;
    for _ in 0..2 {
        assert_eq!(rt;
            reader.take(READER, 0, &mut area),
            Err(UnitFault::Damaged(READER, 1))
        );
        assert_eq!(rt; area, read);
        assert_eq!(rt; reader.ask(READER), standing(200, 3, 1));
    }
}

#[test]
fn a_card_has_80_bytes_at_most(rt: HostRuntime) {
    let mut area = [plus(0); 16];
    let full = CardReader::new(&[b'A'; 80], 1, 80).take(READER, 0, &mut area);
    assert_eq!(rt; full, Ok(()));
    assert_eq!(rt; area, [plus(17_043_521); 16]);
    let long = CardReader::new(&[b' '; 81], 1, 80).take(READER, 0, &mut area);
    assert_eq!(rt; long, Err(UnitFault::Damaged(READER, 0)));
    let returned = CardReader::new(b"A\r\n", 1, 80).take(READER, 0, &mut area);
    assert_eq!(rt; returned, Err(UnitFault::Damaged(READER, 0)));
}

#[test]
fn a_block_goes_as_far_as_the_area(rt: HostRuntime) {
    let text = b"A    B    C\nD";
    let mut short = [minus(9); 2];
    assert_eq!(rt;
        CardReader::new(text, 2, 80).take(READER, 0, &mut short),
        Ok(())
    );
    assert_eq!(rt; short, [plus(16_777_216), plus(33_554_432)]);
    let mut long = [minus(9); 18];
    assert_eq!(rt;
        CardReader::new(text, 2, 80).take(READER, 0, &mut long),
        Ok(())
    );
    assert_eq!(rt; long[2], plus(50_331_648));
    assert_eq!(rt; long[15], plus(0));
    assert_eq!(rt; long[16], minus(9));
    assert_eq!(rt; long[17], minus(9));
    let mut reader = CardReader::new(text, 2, 80);
    assert_eq!(rt; reader.take(READER, 0, &mut []), Ok(()));
    assert_eq!(rt; reader.ask(READER), standing(2, 2, 1));
}

#[test]
fn a_reader_is_only_read(rt: HostRuntime) {
    let mut reader = CardReader::new(b"A\nB", 2, 80);
    assert_eq!(rt;
        reader.put(READER, 0, &[plus(1); 16]),
        Err(UnitFault::NotAllowed(READER))
    );
    assert_eq!(rt;
        reader.shift(READER, plus(0)),
        Err(UnitFault::NotAllowed(READER))
    );
    assert_eq!(rt;
        reader.shift(READER, minus(1)),
        Err(UnitFault::NotAllowed(READER))
    );
    assert_eq!(rt; reader.ask(READER), standing(2, 2, 0));
    assert!(rt; reader.text(READER, 0) == [b' '; 120]);
}

#[test]
fn other_units_are_absent(rt: HostRuntime) {
    let mut reader = CardReader::new(b"A\nB", 2, 80);
    let mut area = [plus(1); 16];
    for unit in [DISK, PUNCH, NONE] {
        assert_eq!(rt; reader.ask(unit), None);
        assert_eq!(rt;
            reader.take(unit, 0, &mut area),
            Err(UnitFault::Absent(unit))
        );
        assert_eq!(rt; reader.put(unit, 0, &area), Err(UnitFault::Absent(unit)));
        assert_eq!(rt; reader.shift(unit, plus(0)), Err(UnitFault::Absent(unit)));
        assert!(rt; reader.text(unit, 0) == [b' '; 120]);
    }
    assert_eq!(rt; area, [plus(1); 16]);
    assert_eq!(rt; reader.ask(READER), standing(2, 2, 0));
}

#[test]
fn a_reader_that_the_rules_do_not_allow_is_absent(rt: HostRuntime) {
    let mut area = [plus(1); 16];
    for mut reader in [
        CardReader::new(b"A", 1001, 80),
        CardReader::new(b"A", 65_535, 80),
        CardReader::new(b"A", 0, 80),
        CardReader::new(b"A\nB\n", 1, 80),
    ] {
        assert_eq!(rt; reader.ask(READER), None);
        assert_eq!(rt;
            reader.take(READER, 0, &mut area),
            Err(UnitFault::Absent(READER))
        );
        assert_eq!(rt;
            reader.put(READER, 0, &area),
            Err(UnitFault::Absent(READER))
        );
        assert_eq!(rt;
            reader.shift(READER, plus(0)),
            Err(UnitFault::Absent(READER))
        );
    }
    assert_eq!(rt; area, [plus(1); 16]);
    assert_eq!(rt;
        CardReader::new(b"A\nB\n", 2, 80).ask(READER),
        standing(2, 2, 0)
    );
    let cards = [b'\n'; 1000];
    assert_eq!(rt;
        CardReader::new(&cards, 1000, 80).ask(READER),
        standing(1000, 1000, 0)
    );
    assert_eq!(rt; CardReader::new(&[b'\n'; 1001], 1000, 80).ask(READER), None);
}

#[test]
fn the_time_told_is_the_readers(rt: HostRuntime) {
    let mut reader = CardReader::new(b"A", 1, 80);
    let mut area = [plus(0); 16];
    for transfer in [
        Transfer::Take(0),
        Transfer::Put(0),
        Transfer::Shift(plus(0)),
    ] {
        assert_eq!(rt;
            reader.time(Request {
                unit: READER,
                transfer
            }),
            80
        );
    }
    assert_eq!(rt; reader.ask(READER), standing(1, 1, 0));
    assert_eq!(rt; reader.take(READER, 0, &mut area), Ok(()));
    let again = Request {
        unit: READER,
        transfer: Transfer::Take(0),
    };
    assert_eq!(rt; reader.time(again), 80);
    assert_eq!(rt; CardReader::new(b"A", 1, 0).time(again), 0);
    assert_eq!(rt; CardReader::new(b"A", 1, 65_535).time(again), 65_535);
}
