// sample_runs: runs each sample deck with its data cards, and compares what is printed of it with the file that has what
// it should be.
#![tactic(auto)]

ghost use Rattle.std.specs.Prelude.{◌≡◌, ◌↔◌, IfOk, IsNone, IsTrue};
ghost use Rattle.jobs.specs.Jobs.{printed};

use anyhow::{Context, ensure};
use std::fs;
use std::process::ExitCode;
use std::rt::Files;
use streams::status;

// The samples by their names. NAME.mix is the deck, NAME.dat has its data cards where there are any, and NAME.out has
// what is to be printed of them.
const SAMPLES: [&str; 14] = [
    "hello", "copy", "report", "sort", "buffers", "fault", "damaged", "rejected", "endless",
    "mark-1", "mark-2", "mark-3", "mark-4", "mark-5",
];

// A sample's deck with its data cards, and what is to be printed of it.
#[derive(Drop)]
struct Sample {
    input: Vec<u8>,
    wanted: Vec<u8>,
}

impl Sample {
    fn read<R: Files + AllocGlobal>(rt: &R, name: &str) -> anyhow::Result<Sample> {
        let mut input = contents(rt, name, "mix")?;
        let cards = format!(in rt.alloc(); "{name}.dat")?;
        if fs::exists(rt, cards.as_str())? {
            input.extend_from_slice(&contents(rt, name, "dat")?)?;
        }
        let wanted = contents(rt, name, "out")?;
        Ok(Sample { input, wanted })
    }
}

fn contents<R: Files + AllocGlobal>(rt: &R, name: &str, ending: &str) -> anyhow::Result<Vec<u8>> {
    let path = format!(in rt.alloc(); "{name}.{ending}")?;
    fs::read(rt, path.as_str()).context(format_args!("reading {path}"))
}

// How many lines two texts have in common before they part; none if they are the same.
fn common_lines(printed: &[u8], wanted: &[u8]) -> Option<usize>
    ensures { IsNone result ↔ (printed.now ≡ wanted.now) }
{
    if printed == wanted {
        return None;
    }
    let lines = printed
        .split(|b| *b == b'\n')
        .zip(wanted.split(|b| *b == b'\n'));
    Some(lines.take_while(|(a, b)| a == b).count())
}

// The line that so many lines of a text stand before, as far as it can be shown.
fn line_after(text: &[u8], lines: usize) -> &str {
    let line = text.split(|b| *b == b'\n').nth(lines).unwrap_or(b"");
    str::from_utf8(line).unwrap_or("")
}

// Runs a sample, prints whether it came out as wanted, and if not the first line that differs, and answers the same.
fn try_sample<R: Print + AllocGlobal>(rt: &R, name: &str, sample: &Sample) -> anyhow::Result<bool>
    ensures { IfOk result (λ same. IsTrue same ↔ (printed sample.now.input.items ≡ sample.now.wanted.items)) }
{
    let printed = jobs::report(rt.alloc(), &sample.input)?;
    match common_lines(&printed, &sample.wanted) {
        None => {
            println!(rt; "{name} same")?;
            Ok(true)
        }
        Some(lines) => {
            let ours = line_after(&printed, lines);
            let wanted = line_after(&sample.wanted, lines);
            println!(rt; "{name} differs after {lines} lines: '{ours}', wanted '{wanted}'")?;
            Ok(false)
        }
    }
}

fn try_all<R: Files + Print + AllocGlobal>(rt: &R) -> anyhow::Result<()> {
    let mut all_same = true;
    for name in SAMPLES {
        let sample = Sample::read(rt, name)?;
        all_same &= try_sample(rt, name, &sample)?;
    }
    ensure!(all_same, "not all samples came out as wanted");
    Ok(())
}

fn main(rt: HostRuntime) -> ExitCode {
    let outcome = try_all(&rt);
    status(&rt, "sample_runs", outcome)
}
