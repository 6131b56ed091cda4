ghost use Rattle.std.specs.Prelude.{◌≡◌, ◌≤◌, slice_index};
ghost use Rattle.room_jobs.specs.Differences.{digit_at, location_at, place, place_with_c};

// The place of a line among the lines of a sheet, as a number that grows from line to line. Lines of the printer
// share one, and lines of the punch.
#[tactic(auto, unfolding(crate::specs::Differences::place))]
pub(crate) fn place(line: &[u8]) -> u32
    ensures { result ≡ place line.now }
{
    match byte(line, 0) {
        b'F' | b'N' => 0,
        b'P' => 1,
        b'C' => place_with_c(byte(line, 1)),
        b'M' => 3,
        b'A' => 4,
        b'I' => 4 + digit(line, 1),
        b'X' => 11,
        b'J' => 12,
        b'O' => 13,
        b'W' => 20_000,
        _ => 15 + location(line),
    }
}

// Lines that begin with C are cards of the punch, the line CLEAN, and the indicator's.
fn place_with_c(next: u8) -> u32
    ensures { result ≡ place_with_c next }
{
    match next {
        b'L' => 3,
        b'I' => 14,
        _ => 2,
    }
}

// The location that a line begins with.
fn location(line: &[u8]) -> u32
    ensures value { result ≡ location_at line.now }
    ensures bound { result ≤ 230000 }
{
    1000 * digit(line, 0) + 100 * digit(line, 1) + 10 * digit(line, 2) + digit(line, 3)
}

// The digit at a column, taken from 0 on.
fn digit(line: &[u8], column: usize) -> u32
    ensures value { result ≡ digit_at line.now column }
    ensures bound { result ≤ 207 }
{
    u32::from(byte(line, column).saturating_sub(b'0'))
}

// The byte at a column, 0 where the line has ended.
fn byte(line: &[u8], column: usize) -> u8
    ensures { result ≡ slice_index line.now column }
{
    line.get(column).copied().unwrap_or(0)
}
