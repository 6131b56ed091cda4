use anyhow::Result;
use flights::{Fault, Mark};
use machine::{Counts, Phase};
use std::alloc::Global;

// How a machine stands: it has halted, it is at a fault, or neither.
pub(crate) fn phase_line(heap: Global, phase: Phase) -> Result<String> {
    match phase {
        Phase::Halted => Ok(String::from_str(heap, "HALTED")?),
        Phase::Faulted(fault) => fault_line(heap, fault),
        Phase::Running => Ok(String::from_str(heap, "NOT HALTED")?),
    }
}

// The numbers of a fault.
pub(crate) fn fault_line(heap: Global, fault: Fault) -> Result<String> {
    let mut line = String::from_str(heap, "FAULT")?;
    for number in fault.numbers(heap)?.iter() {
        let told = format!(in heap; " {number}")?;
        line.push_str(told.as_str())?;
    }
    Ok(line)
}

// The mark of a machine, or that it has none.
pub(crate) fn mark_line(heap: Global, mark: Option<Mark>) -> Result<String> {
    let Some(mark) = mark else {
        return Ok(String::from_str(heap, "CLEAN")?);
    };
    let kind = mark.kind.number();
    let unit = mark.unit.number;
    let location = mark.location;
    Ok(format!(in heap; "MARK {kind} {unit} {location}")?)
}

// The counts that a sheet tells.
pub(crate) fn sheet_counts(heap: Global, counts: Counts, between: &str) -> Result<String> {
    let (steps, time) = (counts.working_steps, counts.working_time);
    let (clock, waiting) = (counts.clock, counts.waiting);
    Ok(format!(in heap; "WORK {steps} {time}{between}CLOCK {clock} {waiting}")?)
}

// The counts that it does not tell: the steps that were granted, the waiting steps, and the times told.
pub(crate) fn other_counts(heap: Global, counts: Counts, between: &str) -> Result<String> {
    let (granted, waited, told) = (counts.granted, counts.waiting_steps, counts.told);
    Ok(format!(in heap; "GRANTED {granted}{between}WAITED {waited}{between}TOLD {told}")?)
}
