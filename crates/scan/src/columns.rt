ghost use Rattle.std.specs.Prelude.{◌≡◌, ◌<◌, ◌≤◌, ◌+◌, map};
ghost use Rattle.std.specs.List.{range_with_len};
ghost use Rattle.scan.specs.Columns.{column_at, is_remark, loc_of, gap_filled, op_of, alf_of, address_of};

use crate::spans::{after, front};
use card::{trim, until};
use std::array;

// Whether a card is a remark: column 1 is an asterisk.
pub fn is_remark(card: &[u8]) -> bool
    ensures { result ≡ is_remark card.now }
{
    column(card, 1) == b'*'
}

// Columns 1 to 10, without the blanks at their end.
pub fn loc_text(card: &[u8]) -> &[u8]
    ensures { result.now ≡ loc_of card.now }
{
    trim(front(card, 10))
}

// Whether column 11 or column 16 is not blank.
pub fn gap_filled(card: &[u8]) -> bool
    ensures { result ≡ gap_filled card.now }
{
    column(card, 11) != b' ' || column(card, 16) != b' '
}

// Columns 12 to 15.
pub fn op_text(card: &[u8]) -> [u8; 4]
    ensures { result ≡ op_of card.now }
{
    columns(card, 12)
}

// Columns 17 to 21.
pub fn alf_text(card: &[u8]) -> [u8; 5]
    ensures { result ≡ alf_of card.now }
{
    columns(card, 17)
}

// From column 17 up to the first blank.
pub fn address_text(card: &[u8]) -> &[u8]
    ensures { result.now ≡ address_of card.now }
{
    let text = after(card, 16);
    front(text, until(text, b' '))
}

// N columns from the first on.
fn columns<const N: usize>(card: &[u8], first: usize) -> [u8; N]
    requires from_one { 0 < first }
    requires within { first + N ≤ 80 }
    ensures { result ≡ map (λ n. column_at n card.now) (range_with_len first N) }
{
    array::from_fn(
        |i| -> u8
            requires { (0 < first) × (first + i ≤ 80) }
            ensures { result ≡ column_at (first + i) card.entry.now }
        { column(card, first + i) },
    )
}

// What a column holds, counted from 1; past the card's end it is blank.
fn column(card: &[u8], n: usize) -> u8
    requires { 0 < n }
    ensures { result ≡ column_at n card.now }
{
    card.get(n - 1).copied().unwrap_or(b' ')
}
