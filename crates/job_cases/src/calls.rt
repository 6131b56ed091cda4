use crate::told::{fault_line, mark_line, other_counts, phase_line, sheet_counts};
use crate::units::Units;
use anyhow::{Context, Result, bail};
use console::{Closed, JobFault, Loaded};
use lines::word_text;
use machine::Status;
use std::alloc::Global;

// A machine between calls.
#[derive(Drop)]
enum Stage<'t> {
    Open(Loaded<Units<'t>>),
    Closed(Closed<Units<'t>>),
    Sheeted,
}

// A call, as `run 3`, `peek 100`, `status`, `close` or `sheet 140`; of a sheet the length of the buffer.
#[derive(Clone, Copy)]
enum Call {
    Run(u32),
    Peek(u16),
    Status,
    Close,
    Sheet(usize),
}

impl Call {
    fn read(call: &str) -> Result<Call> {
        match call.split_once(' ').unwrap_or((call, "")) {
            ("run", budget) => Ok(Call::Run(budget.parse::<u32>()?)),
            ("peek", location) => Ok(Call::Peek(location.parse::<u16>()?)),
            ("status", "") => Ok(Call::Status),
            ("close", "") => Ok(Call::Close),
            ("sheet", length) => Ok(Call::Sheet(length.parse::<usize>()?)),
            _ => bail!("no such call"),
        }
    }
}

// Makes the calls of lines such as `run 3 -> NOT HALTED`, one after the other, and tells each with its answer.
pub(crate) fn answers(heap: Global, loaded: Loaded<Units<'_>>, lines: &[&str]) -> Result<Vec<u8>> {
    let mut stage = Stage::Open(loaded);
    let mut out = Vec::new(heap);
    for line in lines {
        let (text, _) = line.split_once(" -> ").context("no answer wanted")?;
        let call = Call::read(text).context(format_args!("{line}"))?;
        let (next, answer) = answered(heap, stage, call).context(format_args!("{line}"))?;
        let told = format!(in heap; "{text} -> {answer}\n")?;
        out.extend_from_slice(told.as_bytes())?;
        stage = next;
    }
    Ok(out)
}

// Makes a call, and tells its answer.
fn answered<'t>(heap: Global, stage: Stage<'t>, call: Call) -> Result<(Stage<'t>, String)> {
    match (stage, call) {
        (Stage::Open(mut loaded), Call::Run(budget)) => {
            let answer = run(heap, &mut loaded, budget)?;
            Ok((Stage::Open(loaded), answer))
        }
        (Stage::Open(loaded), Call::Peek(location)) => {
            let answer = peek(heap, &loaded, location)?;
            Ok((Stage::Open(loaded), answer))
        }
        (Stage::Open(loaded), Call::Status) => {
            let answer = status_line(heap, loaded.status())?;
            Ok((Stage::Open(loaded), answer))
        }
        (Stage::Open(loaded), Call::Close) => close(heap, loaded),
        (Stage::Closed(closed), Call::Sheet(length)) => sheet(heap, closed, length),
        _ => bail!("not a call of such a machine"),
    }
}

// How the machine stands after a run, or why it was refused.
fn run(heap: Global, loaded: &mut Loaded<Units<'_>>, budget: u32) -> Result<String> {
    match loaded.run(budget) {
        Ok(status) => phase_line(heap, status.phase),
        Err(fault) => refusal_line(heap, fault),
    }
}

// The word at a location.
fn peek(heap: Global, loaded: &Loaded<Units<'_>>, location: u16) -> Result<String> {
    match loaded.peek(location) {
        Ok(word) => Ok(String::from_utf8(Vec::from_slice(heap, &word_text(word))?)?),
        Err(fault) => refusal_line(heap, fault),
    }
}

// All that is told of a machine.
fn status_line(heap: Global, status: Status) -> Result<String> {
    let phase = phase_line(heap, status.phase)?;
    let mark = mark_line(heap, status.mark)?;
    let counts = sheet_counts(heap, status.counts, ", ")?;
    let others = other_counts(heap, status.counts, ", ")?;
    Ok(format!(in heap; "{phase}, {mark}, {counts}, {others}")?)
}

// Whether the machine is closed.
fn close<'t>(heap: Global, loaded: Loaded<Units<'t>>) -> Result<(Stage<'t>, String)> {
    match loaded.close() {
        Ok(closed) => {
            let answer = String::from_str(heap, "CLOSED")?;
            Ok((Stage::Closed(closed), answer))
        }
        Err((loaded, fault)) => {
            let answer = refusal_line(heap, fault)?;
            Ok((Stage::Open(loaded), answer))
        }
    }
}

// The length of the sheet that is written into a buffer of some length; where the buffer is too short, it is told too
// if the buffer did not stay as it was.
fn sheet<'t>(
    heap: Global,
    closed: Closed<Units<'t>>,
    length: usize,
) -> Result<(Stage<'t>, String)> {
    let text = closed.text(heap)?;
    let mut buffer = vec![in heap; b'?'; length]?;
    match closed.sheet(heap, &mut buffer) {
        Ok(written) => {
            let right = buffer.get(..written) == Some(text.as_slice());
            let answer = format!(in heap; "{written}{}", if right { "" } else { " wrong" })?;
            Ok((Stage::Sheeted, answer))
        }
        Err((closed, fault)) => {
            let kept = buffer.iter().all(|byte| *byte == b'?');
            let number = refusal_line(heap, fault)?;
            let answer = format!(in heap; "{number}{}", if kept { "" } else { " altered" })?;
            Ok((Stage::Closed(closed), answer))
        }
    }
}

// The number of a refusal, and the length that it tells; or the fault of the machine.
fn refusal_line(heap: Global, fault: JobFault) -> Result<String> {
    let number = fault.number().context("memory is wanting")?;
    match fault {
        JobFault::Machine(fault) => fault_line(heap, fault),
        JobFault::Outside(location) => Ok(format!(in heap; "{number} {location}")?),
        JobFault::TooLong(text) => Ok(format!(in heap; "{number} {}", text.length)?),
        _ => Ok(format!(in heap; "{number}")?),
    }
}
