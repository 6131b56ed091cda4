use crate::reading::{count, distinct, parts, setting, word};
use crate::state::set;
use anyhow::{Context, Result, bail, ensure};
use cpu::{Fault, Next, Processor, Registers, Span, Step};
use names::Instruction;
use rack::{Transfer, Unit};

// What the words say that must come of an instruction; the processor becomes what it must be then.
pub(crate) fn answer(
    processor: &mut Processor,
    code: Instruction,
    text: &str,
) -> Result<std::result::Result<Step, Fault>> {
    distinct(text)?;
    let mut words = text.split_whitespace();
    let first = words.next().context("nothing must come of it")?;
    if let Some(told) = first.strip_prefix("fault=") {
        ensure!(words.next().is_none(), "more than a fault");
        return Ok(Err(fault(told)?));
    }
    let mut step = Step {
        next: outcome(&mut processor.registers, code, first)?,
        time: time(words.next().context("no time")?)?,
        reads: Span { start: 0, count: 0 },
        writes: Span { start: 0, count: 0 },
        takes_j: false,
    };
    for part in words {
        match setting(part)? {
            ("reads", span) => step.reads = locations(span)?,
            ("writes", span) => step.writes = locations(span)?,
            ("takes", "J") => step.takes_j = true,
            ("J", value) => {
                ensure!(step.next == Next::Goes(None), "J is set by a jump");
                step.next = Next::Goes(Some(count(value)?));
            }
            (name, value) => set(processor, code, name, value)?,
        }
    }
    Ok(Ok(step))
}

// A time, as 2u.
fn time(text: &str) -> Result<u32> {
    match text.strip_suffix('u') {
        Some(units) => count(units),
        None => bail!("{text} is no time"),
    }
}

// Locations in a row, as 100 or 100*3.
fn locations(text: &str) -> Result<Span> {
    let (start, number) = text.split_once('*').unwrap_or((text, "1"));
    Ok(Span {
        start: count(start)?,
        count: count(number)?,
    })
}

// A rejection: its number, and the location that is told.
fn fault(text: &str) -> Result<Fault> {
    let fault = match parts(text)? {
        ("10", location) => Fault::Outside(word(location)?),
        ("11", location) => Fault::Unlisted(count(location)?),
        ("12", location) => Fault::BeyondIndex(count(location)?),
        ("13", location) => Fault::NegativeShift(count(location)?),
        _ => bail!("{text} is no rejection"),
    };
    Ok(fault)
}

// Where it goes on, or what is asked of a unit.
fn outcome(registers: &mut Registers, code: Instruction, text: &str) -> Result<Next> {
    match text {
        "on" => {
            registers.location = registers.location.saturating_add(1);
            return Ok(Next::Goes(None));
        }
        "halts" => return Ok(Next::Halts),
        _ => {}
    }
    let (name, value) = setting(text)?;
    match name {
        "to" => {
            registers.location = count(value)?;
            Ok(Next::Goes(None))
        }
        "waits" => Ok(Next::Waits(unit(value, code)?)),
        _ => {
            let (number, rest) = parts(value)?;
            request(name, unit(number, code)?, rest)
        }
    }
}

// What is asked of a unit: a jump to a location, or a transfer with an area from a location on.
fn request(name: &str, unit: Unit, rest: &str) -> Result<Next> {
    let next = match name {
        "busy" => Next::Tests(unit, true, word(rest)?),
        "ready" => Next::Tests(unit, false, word(rest)?),
        "shift" => Next::Issues(unit, Transfer::Shift(word(rest)?), word(rest)?),
        "take" => {
            let (block, area) = parts(rest)?;
            Next::Issues(unit, Transfer::Take(count(block)?), word(area)?)
        }
        "put" => {
            let (block, area) = parts(rest)?;
            Next::Issues(unit, Transfer::Put(count(block)?), word(area)?)
        }
        _ => bail!("{name} is not known"),
    };
    Ok(next)
}

// A unit's number; F is that of the instruction.
fn unit(text: &str, code: Instruction) -> Result<Unit> {
    let number = if text == "F" { code.f } else { count(text)? };
    Ok(Unit { number })
}
