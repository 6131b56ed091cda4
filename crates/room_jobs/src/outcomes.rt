ghost use Rattle.std.specs.Prelude.{◌≢◌, IfOk};
ghost use Rattle.console.specs.Calls.{closed_model, loaded_model, room_model};
ghost use Rattle.machine.specs.declared.phase.Phase.TheVariants.{Halted};
ghost use Rattle.room_jobs.specs.TwoRooms.{OutcomeOf};

use console::{Closed, Loaded, Room};
use jobs::no_sheet;
use rack::Rack;
use std::alloc::{AllocError, Global};

// What came of a deck in a room: its sheet, its fault, or that it has not halted; the same without the clock's
// line; and of a machine that has halted, whether the watch vouches for it.
#[derive(Drop)]
pub(crate) struct Outcome {
    pub(crate) told: Vec<u8>,
    pub(crate) compared: Vec<u8>,
    pub(crate) verdict: Vec<u8>,
}

impl Outcome {
    // What came of the deck in a room.
    pub(crate) fn of<R: Rack + Drop>(heap: Global, room: Room<R>) -> Result<Outcome, AllocError>
        ensures { IfOk result (OutcomeOf (room_model R.holds room)) }
    {
        match room {
            Room::Closed(closed) => Outcome::halted(heap, &closed),
            Room::Open(loaded) => match loaded.close() {
                Ok(closed) => Outcome::halted(heap, &closed),
                Err((loaded, _)) => Outcome::stopped(heap, &loaded),
            },
        }
    }

    // Of a machine that has halted, its sheet.
    fn halted<R: Rack>(heap: Global, closed: &Closed<R>) -> Result<Outcome, AllocError>
        ensures { IfOk result (OutcomeOf (closed_model R.holds closed.now)) }
    {
        Ok(Outcome {
            told: closed.text(heap)?,
            compared: closed.front(heap)?,
            verdict: closed.verdict(heap)?,
        })
    }

    // Of one that has not, its fault, or that it has not halted.
    fn stopped<R: Rack>(heap: Global, loaded: &Loaded<R>) -> Result<Outcome, AllocError>
        requires { (loaded_model R.holds loaded.now).phase ≢ Halted }
        ensures { IfOk result (OutcomeOf (loaded_model R.holds loaded.now)) }
    {
        let line = no_sheet(heap, loaded.status().phase)?;
        Ok(Outcome {
            told: Vec::from_slice(heap, &line)?,
            compared: line,
            verdict: Vec::new(heap),
        })
    }
}
