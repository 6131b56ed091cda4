use crate::chains::by_hand;
use job_rack::{Settings, job_rack, room_rack};
use rack::Unit;
use std::test::Fail;

// A card is read, and waited for.
pub(crate) static DECK: &[u8; 79] =
    b"           IN   100(16)\n           JBUS *(16)\n           HLT\n           END  0\n";

// All lines of its sheet but the last.
static FRONT: &[u8; 128] =
    b"CLEAN\nJ UNSETTLED\nOV OFF\nCI E\n0000 + 01 36 00 16 36\n0001 + 00 01 00 16 34\n0002 + 00 00 00 02 05\n0100 + 08 05 13 13 16\nWORK 3 12\n";

// A reader that takes 30 units of time in place of 80.
#[test]
fn two_rooms_by_hand(rt: HostRuntime) -> Result<(), Fail> {
    let heap = rt.alloc();
    let mut times = Settings::new();
    assert_eq!(rt; times.set(Unit { number: 16 }, 30), Ok(()));
    let first = job_rack(heap, b"HELLO\n")?;
    let second = room_rack(heap, b"HELLO\n", times)?;
    let (first, second) = by_hand(heap, DECK, first, second)?;
    let (first, second) = (first.text(heap)?, second.text(heap)?);
    assert_eq!(rt;
        first.strip_suffix(b"CLOCK 92 80\n"),
        Some(FRONT.as_slice())
    );
    assert_eq!(rt;
        second.strip_suffix(b"CLOCK 42 30\n"),
        Some(FRONT.as_slice())
    );
    Ok(())
}
