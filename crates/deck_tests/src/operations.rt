use names::{Instruction, Operation, operation};

// The instruction of a C and an F.
fn of(c: u8, f: u8) -> Instruction {
    Instruction { c, f }
}

// Whether a name is an instruction with this C and F.
fn is(text: [u8; 4], c: u8, f: u8) -> bool {
    operation(text) == Some(Operation::Machine(of(c, f)))
}

#[test]
fn names_and_their_codes(rt: HostRuntime) {
    assert!(rt; is(*b"NOP ", 0, 0));
    assert!(rt; is(*b"HLT ", 5, 2));
    assert!(rt; is(*b"SRC ", 6, 5));
    assert!(rt; is(*b"MOVE", 7, 1));
    assert!(rt; is(*b"LD3N", 19, 5));
    assert!(rt; is(*b"STJ ", 32, 2));
    assert!(rt; is(*b"STZ ", 33, 5));
    assert!(rt; is(*b"JRED", 38, 0));
    assert!(rt; is(*b"JLE ", 39, 9));
    assert!(rt; is(*b"J6NP", 46, 5));
    assert!(rt; is(*b"ENNX", 55, 3));
    assert!(rt; is(*b"CMP1", 57, 5));
    assert!(rt; operation(*b"END ") == Some(Operation::End));
    assert!(rt; operation(*b"    ").is_none());
    assert!(rt; operation(*b" IN ").is_none());
    assert!(rt; operation(*b"add ").is_none());
}

#[test]
fn codes_and_their_times(rt: HostRuntime) {
    assert_eq!(rt; of(0, 0).time(), 1);
    assert_eq!(rt; of(4, 5).time(), 12);
    assert_eq!(rt; of(5, 2).time(), 10);
    assert_eq!(rt; of(7, 10).time(), 21);
    assert_eq!(rt; of(36, 16).time(), 1);
    assert_eq!(rt; of(63, 5).time(), 2);
    assert_eq!(rt; of(64, 0).time(), 0);
    assert!(rt; of(39, 8).name() == Some(*b"JNE "));
    assert!(rt; of(48, 2).name() == Some(*b"ENTA"));
    assert!(rt; of(6, 6).name().is_none());
}
