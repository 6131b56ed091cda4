// mixjob: reads a deck and its data cards from standard input, and prints the listing, the symbols and what comes of
// the run, or the deck's rejection.
#![tactic(auto)]

ghost use Rattle.std.specs.Prelude.{◌≡◌};
ghost use Rattle.jobs.specs.Jobs.{printed};

use std::alloc::{AllocError, Global};
use std::process::ExitCode;
use streams::{Report, filter, status};

// The deck that is read, listed and run with its data cards, or rejected.
struct Job;

impl Report for Job {
    ghost says = { λ _ input out. out ≡ printed input };

    fn report(&self, heap: Global, input: &[u8]) -> Result<Vec<u8>, AllocError> {
        jobs::report(heap, input)
    }
}

fn main(rt: HostRuntime) -> ExitCode {
    let outcome = filter(&Job, rt.alloc(), &mut rt.stdin(), &mut rt.stdout());
    status(&rt, "mixjob", outcome)
}
