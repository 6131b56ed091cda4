// mixrooms: reads a deck and its data cards from standard input, runs them in two rooms with other times, and prints
// what comes of the first and where the second differs. Its arguments set times in the second room.
#![tactic(auto)]

ghost use Rattle.room_jobs.specs.TwoRooms.{RoomsPrinted};

use anyhow::Context;
use job_rack::{RoomRack, Settings};
use rack::Rack;
use room_jobs::read_times;
use std::alloc::{AllocError, Global};
use std::env;
use std::process::ExitCode;
use std::rt::Env;
use streams::{Report, filter, status};

// The deck that is read is run in two rooms, the second with these times.
#[derive(Drop)]
struct Rooms {
    times: Settings,
}

impl Report for Rooms {
    ghost says = { λ _ input out. RoomsPrinted ⟦<RoomRack<'static> as Rack>⟧.holds ⟦<RoomRack<'static> as Rack>⟧.tells input out };

    fn report(&self, heap: Global, input: &[u8]) -> Result<Vec<u8>, AllocError> {
        room_jobs::report(heap, self.times, input)
    }
}

fn main(rt: HostRuntime) -> ExitCode {
    let outcome = times(&rt).and_then(|times| {
        filter(
            &Rooms { times },
            rt.alloc(),
            &mut rt.stdin(),
            &mut rt.stdout(),
        )
    });
    status(&rt, "mixrooms", outcome)
}

// The times that the arguments set.
fn times<R: Env + AllocGlobal>(rt: &R) -> anyhow::Result<Settings> {
    let all = env::args(rt).context("some argument is not UTF-8, or memory is wanting")?;
    let words: Vec<String> = all.skip(1).collect(rt.alloc())?;
    Ok(read_times(words.as_slice())?)
}
