// What the programs do: read all of the input, write the report on it, and tell what failed.
#![tactic(auto)]

ghost use Rattle.std.specs.Prelude.{◌≡◌, ◌↔◌, ℕ, List, IfOk, IfSome, IsOk, OnOk};
ghost use Rattle.std.specs.Io.KnownBytes.{Appends, IsAtEnd};
ghost use Rattle.std.specs.Process.{exit_status};

use std::alloc::{AllocError, Global};
use std::io::{Eprint, Read, Write};
use std::process::ExitCode;

#[cfg(test)]
mod tests;

// What a program writes of all that it reads.
pub trait Report {
    // Whether bytes are a report on the bytes read.
    ghost says: { Self → List ℕ → List ℕ → Type 0 };

    fn report(&self, heap: Global, input: &[u8]) -> Result<Vec<u8>, AllocError>
        ensures { IfOk result (λ out. says self.now input.now out.items) };
}

// Reads the input to its end, and writes the report on it to the output.
pub fn filter<P: Report, R: Read, W: Write>(
    program: &P,
    heap: Global,
    input: &mut R,
    output: &mut W,
) -> anyhow::Result<()>
    ensures read { OnOk result (IsAtEnd (R.remaining input.new)) }
    ensures written { OnOk result (IfSome (R.remaining input.old)
        (λ bytes. (out : List ℕ) × P.says program.now bytes out × Appends (W.contents output.old) (W.contents output.new) out)) }
{
    let mut bytes = Vec::new(heap);
    input.read_to_end(&mut bytes)?;
    let report = program.report(heap, &bytes)?;
    output.write_all(&report)?;
    Ok(())
}

// How a program ends: well, or else with a line on standard error that says why not.
pub fn status<E: Eprint>(rt: &E, program: &str, outcome: anyhow::Result<()>) -> ExitCode
    ensures { exit_status result ≡ 0 ↔ IsOk outcome }
{
    match outcome {
        Ok(()) => ExitCode::SUCCESS,
        Err(why) => {
            let _ = eprintln!(rt; "{program}: {why}");
            ExitCode::FAILURE
        }
    }
}
