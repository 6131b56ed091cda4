// job_cases: reads a table of decks from standard input, and prints of each group how many cases it has, and which of
// them do not come out as the table wants it. The table itself says how it is written.
#![tactic(auto)]

mod calls;
mod cards;
mod case;
mod outcomes;
mod reading;
mod report;
mod rows;
mod times;
mod told;
mod units;

use anyhow::{Result, ensure};
use std::io;

fn main(rt: HostRuntime) -> Result<()> {
    let heap = rt.alloc();
    let table = io::read_to_string(heap, rt.stdin())?;
    let groups = reading::groups(heap, table.as_str())?;
    let report = report::compared(heap, &groups)?;
    let text = report.text.as_str();
    print!(rt; "{text}")?;
    ensure!(report.differ == 0, "{} cases differ", report.differ);
    Ok(())
}
