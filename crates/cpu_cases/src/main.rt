// cpu_cases: reads a table of cases from standard input, executes the instruction of each, and prints how many
// cases each group has, and each that comes out otherwise than the table says.
#![tactic(auto)]

mod case;
mod expected;
mod instruction;
mod reading;
mod report;
mod row;
mod state;

use report::report_on;
use std::io;
use std::process::ExitCode;
use streams::status;

fn run(rt: &HostRuntime) -> anyhow::Result<()> {
    let table = io::read_to_string(rt.alloc(), rt.stdin())?;
    let report = report_on(rt.alloc(), &table)?;
    print!(rt; "{report}")?;
    Ok(())
}

fn main(rt: HostRuntime) -> ExitCode {
    status(&rt, "cpu_cases", run(&rt))
}
