use rack::{Ring, Standing, Unit};
use word::{Sign, Word};

pub(crate) const DISK: Unit = Unit { number: 15 };

pub(crate) const READER: Unit = Unit { number: 16 };

pub(crate) const PUNCH: Unit = Unit { number: 17 };

pub(crate) const PRINTER: Unit = Unit { number: 18 };

pub(crate) const NONE: Unit = Unit { number: 19 };

// A word by its sign and number.
pub(crate) fn plus(number: u64) -> Word {
    Word::wrapping(Sign::Plus, number)
}

pub(crate) fn minus(number: u64) -> Word {
    Word::wrapping(Sign::Minus, number)
}

// How a present unit stands whose ring is in.
pub(crate) fn standing(capacity: u16, blocks: u16, position: u16) -> Option<Standing> {
    Some(Standing {
        capacity,
        blocks,
        position,
        ring: Ring::In,
    })
}

// A text in 120 columns.
pub(crate) fn columns(text: &[u8]) -> [u8; 120] {
    let mut columns = [b' '; 120];
    for (column, byte) in columns.iter_mut().zip(text) {
        *column = *byte;
    }
    columns
}
