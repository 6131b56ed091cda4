use cpu::{Processor, Registers};
use flights::{Flights, Mark, MarkKind};
use machine::{Counts, J, Parts, Phase};
use paper::{Device, Tray};
use rack::{Rack, Ring, Unit};
use sheet::sheet_text;
use std::alloc::{AllocError, Global};
use std::cmp::Ordering;
use std::test::Fail;
use word::{Index, Sign, Word};

// The word of a sign and five bytes.
fn word(sign: Sign, bytes: [u8; 5]) -> Result<Word, Fail> {
    match Word::from_bytes(sign, bytes) {
        Some(word) => Ok(word),
        None => Err(Fail::new("a byte is above 63")),
    }
}

// A machine whose registers and words are +0, with J settled, an empty tray and no counts.
fn plain(heap: Global, device: Device) -> Parts<Tray> {
    let zero = Word::wrapping(Sign::Plus, 0);
    let none = Index {
        sign: Sign::Plus,
        magnitude: 0,
    };
    Parts {
        rack: Tray::new(heap, device, 10, Ring::In, 0),
        processor: Processor {
            registers: Registers {
                a: zero,
                i1: none,
                i2: none,
                i3: none,
                i4: none,
                i5: none,
                i6: none,
                x: zero,
                overflow: false,
                indicator: Ordering::Equal,
                location: 0,
            },
            memory: [zero; 4000],
        },
        flights: Flights::new(),
        j: J {
            location: 0,
            settled: true,
        },
        counts: Counts {
            clock: 0,
            working_time: 0,
            waiting: 0,
            told: 0,
            granted: 0,
            working_steps: 0,
            waiting_steps: 0,
        },
        mark: None,
        phase: Phase::Halted,
    }
}

#[test]
fn a_machine_of_zeros(rt: HostRuntime) -> Result<(), AllocError> {
    let parts = plain(rt.alloc(), Device::Printer);
    let text = sheet_text(rt.alloc(), &parts)?;
    assert_eq!(rt;
        text.as_slice(),
        b"CLEAN\nJ + 00 00 00 00 00\nOV OFF\nCI E\nWORK 0 0\nCLOCK 0 0\n".as_slice()
    );
    Ok(())
}

#[test]
fn each_kind_of_line(rt: HostRuntime) -> Result<(), Fail> {
    let mut parts = plain(rt.alloc(), Device::Printer);
    let printer = Unit { number: 18 };
    let hello = word(Sign::Plus, [8, 5, 13, 13, 16])?;
    let _ = parts.rack.put(printer, 0, &[hello]);
    let _ = parts.rack.put(printer, 0, &[]);
    parts.processor.registers.a = word(Sign::Minus, [0, 0, 0, 0, 0])?;
    parts.processor.registers.i2 = Index {
        sign: Sign::Minus,
        magnitude: 65,
    };
    parts.processor.registers.x = word(Sign::Plus, [63, 1, 0, 0, 9])?;
    parts.processor.registers.overflow = true;
    parts.processor.registers.indicator = Ordering::Less;
    parts.processor.memory[7] = hello;
    parts.processor.memory[3999] = word(Sign::Minus, [0, 0, 0, 0, 0])?;
    parts.j.location = 64;
    parts.mark = Some(Mark {
        kind: MarkKind::UnitPolled,
        unit: Unit { number: 16 },
        location: 10,
    });
    parts.counts.working_steps = 3;
    parts.counts.working_time = 12;
    parts.counts.clock = u64::MAX;
    parts.counts.waiting = 80;
    let text = sheet_text(rt.alloc(), &parts)?;
    assert_eq!(rt;
        text.as_slice(),
        b"P HELLO\nP\nMARK 4 16 10\nA - 00 00 00 00 00\nI2 - 00 00 00 01 01\nX + 63 01 00 00 09\nJ + 00 00 00 01 00\nOV ON\nCI L\n0007 + 08 05 13 13 16\n3999 - 00 00 00 00 00\nWORK 3 12\nCLOCK 18446744073709551615 80\n".as_slice()
    );
    Ok(())
}

#[test]
fn a_punched_card(rt: HostRuntime) -> Result<(), Fail> {
    let mut parts = plain(rt.alloc(), Device::Punch);
    let word = word(Sign::Plus, [0, 30, 0, 0, 39])?;
    let _ = parts.rack.put(Unit { number: 17 }, 0, &[word]);
    parts.j.settled = false;
    parts.processor.registers.indicator = Ordering::Greater;
    let text = sheet_text(rt.alloc(), &parts)?;
    assert_eq!(rt;
        text.as_slice(),
        b"C  0  9\nCLEAN\nJ UNSETTLED\nOV OFF\nCI G\nWORK 0 0\nCLOCK 0 0\n".as_slice()
    );
    Ok(())
}
