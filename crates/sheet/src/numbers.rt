ghost use Rattle.std.specs.Prelude.{◌≡◌, IfOk};
ghost use Rattle.sheet.specs.Sheet.{clock_line, mark_line, marked_line, work_line};

use flights::Mark;
use machine::Counts;
use std::alloc::{AllocError, Global};

// Whether the watch vouches for the deck, or its mark.
pub fn mark_line(heap: Global, mark: Option<Mark>) -> Result<Vec<u8>, AllocError>
    ensures { IfOk result (λ v. v.items ≡ mark_line mark) }
{
    match mark {
        Some(mark) => marked_line(heap, mark),
        None => Ok(format!(in heap; "CLEAN\n")?.into_bytes()),
    }
}

// The working steps and their time.
pub(crate) fn work_line(heap: Global, counts: Counts) -> Result<Vec<u8>, AllocError>
    ensures { IfOk result (λ v. v.items ≡ work_line counts) }
{
    let steps = counts.working_steps;
    let time = counts.working_time;
    let line = format!(in heap; "WORK {steps} {time}\n")?;
    Ok(line.into_bytes())
}

// The clock, and the time that was waited.
pub(crate) fn clock_line(heap: Global, counts: Counts) -> Result<Vec<u8>, AllocError>
    ensures { IfOk result (λ v. v.items ≡ clock_line counts) }
{
    let clock = counts.clock;
    let waiting = counts.waiting;
    let line = format!(in heap; "CLOCK {clock} {waiting}\n")?;
    Ok(line.into_bytes())
}

// A mark: its kind, unit and location.
fn marked_line(heap: Global, mark: Mark) -> Result<Vec<u8>, AllocError>
    ensures { IfOk result (λ v. v.items ≡ marked_line mark) }
{
    let kind = mark.kind.number();
    let unit = mark.unit.number;
    let location = mark.location;
    let line = format!(in heap; "MARK {kind} {unit} {location}\n")?;
    Ok(line.into_bytes())
}
