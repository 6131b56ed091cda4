ghost use Rattle.std.specs.Prelude.{◌≡◌, ◌≢◌, IfOk};
ghost use Rattle.console.specs.Calls.{loaded_model};
ghost use Rattle.jobs.specs.Jobs.{outcome_in, outcome_of, runs_of, time_of};
ghost use Rattle.machine.specs.Steps.{State};
ghost use Rattle.machine.specs.declared.phase.Phase.TheVariants.{Halted};
ghost use Rattle.rack.specs.declared.request.Request.{Request};

use crate::faults::fault_line;
use console::Loaded;
use machine::Phase;
use rack::Rack;
use std::alloc::{AllocError, Global};

// What comes of a machine in ten runs: its sheet, its fault, or that it has not halted.
pub(crate) fn outcome_text<R: Rack + Drop>(
    heap: Global,
    mut loaded: Loaded<R>,
) -> Result<Vec<u8>, AllocError>
    requires times { (r : R) (q : Request) → R.tells r q ≡ time_of q }
    ensures { IfOk result (λ v. v.items ≡ outcome_of (runs_of 10 (loaded_model R.holds loaded))) }
{
    make_runs(&mut loaded);
    match loaded.close() {
        Ok(closed) => closed.text(heap),
        Err((loaded, _)) => no_sheet(heap, loaded.status().phase),
    }
}

// Ten runs of 1,000,000 steps. A run after a halt or a fault is refused, and then nothing changes.
fn make_runs<R: Rack>(loaded: &mut Loaded<R>)
    requires times { (r : R) (q : Request) → R.tells r q ≡ time_of q }
    ensures { loaded_model R.holds loaded.new ≡ runs_of 10 (loaded_model R.holds loaded.old) }
{
    for _run in 0..10u8 {
        let _ = loaded.run(1_000_000);
    }
}

// The line of a machine that has not halted.
pub fn no_sheet(heap: Global, phase: Phase) -> Result<Vec<u8>, AllocError>
    ensures { (s : State) → phase ≢ Halted → IfOk result (λ v. v.items ≡ outcome_in s phase) }
{
    match phase {
        Phase::Faulted(fault) => fault_line(heap, fault),
        Phase::Running | Phase::Halted => Ok(format!(in heap; "NOT HALTED\n")?.into_bytes()),
    }
}
