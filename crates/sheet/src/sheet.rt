ghost use Rattle.std.specs.Prelude.{◌≡◌, ◌^◌, ◌<◌, IfOk};
ghost use Rattle.machine.specs.Model.{stands};
ghost use Rattle.sheet.specs.Record.{InRange, TellsRecord};
ghost use Rattle.sheet.specs.Sheet.{front_of, sheet_of};

use crate::blocks::add_blocks;
use crate::numbers::{clock_line, mark_line, work_line};
use crate::words::{add_j, add_memory, add_registers, indicator_line, toggle_line};
use machine::{Counts, Parts};
use rack::{Rack, Unit};
use std::alloc::{AllocError, Global};

// The sheet of a machine, given by its parts.
pub fn sheet_text<R: Rack>(heap: Global, parts: &Parts<R>) -> Result<Vec<u8>, AllocError>
    ensures text { IfOk result (λ v. v.items ≡ sheet_of (stands R.holds parts.now)) }
    ensures range { InRange (stands R.holds parts.now) }
    ensures tells { TellsRecord }
{
    show_range(parts);
    lines_text(heap, parts)
}

// The lines of the sheet, one after the other.
fn lines_text<R: Rack>(heap: Global, parts: &Parts<R>) -> Result<Vec<u8>, AllocError>
    ensures { IfOk result (λ v. v.items ≡ sheet_of (stands R.holds parts.now)) }
{
    let mut out = front_text(heap, parts)?;
    out.extend_from_slice(&clock_line(heap, parts.counts)?)?;
    Ok(out)
}

// All lines but that of the clock.
pub fn front_text<R: Rack>(heap: Global, parts: &Parts<R>) -> Result<Vec<u8>, AllocError>
    ensures { IfOk result (λ v. v.items ≡ front_of (stands R.holds parts.now)) }
{
    let registers = &parts.processor.registers;
    let mut out = Vec::new(heap);
    add_blocks(&mut out, &parts.rack, Unit { number: 18 }, b'P')?;
    add_blocks(&mut out, &parts.rack, Unit { number: 17 }, b'C')?;
    out.extend_from_slice(&mark_line(heap, parts.mark)?)?;
    add_registers(&mut out, registers)?;
    add_j(&mut out, parts.j)?;
    out.extend_from_slice(toggle_line(registers.overflow))?;
    out.extend_from_slice(indicator_line(registers.indicator))?;
    add_memory(&mut out, &parts.processor.memory)?;
    out.extend_from_slice(&work_line(heap, parts.counts)?)?;
    Ok(out)
}

// Shows that each number of a machine is within the room of its type.
fn show_range<R: Rack>(parts: &Parts<R>)
    ensures { InRange (stands R.holds parts.now) }
{
    show_counts(parts.counts);
    prove!(parts.j.location <= u16::MAX);
    if let Some(mark) = parts.mark {
        prove!(mark.unit.number <= u8::MAX);
        prove!(mark.location <= u16::MAX);
    }
}

fn show_counts(counts: Counts)
    ensures working_steps { counts.working_steps < 2 ^ 64 }
    ensures working_time { counts.working_time < 2 ^ 64 }
    ensures clock { counts.clock < 2 ^ 64 }
    ensures waiting { counts.waiting < 2 ^ 64 }
{
    prove!(counts.working_steps <= u64::MAX);
    prove!(counts.working_time <= u64::MAX);
    prove!(counts.clock <= u64::MAX);
    prove!(counts.waiting <= u64::MAX);
}
