ghost use Rattle.std.specs.Prelude.{◌≡◌, ◌∷◌, [], IfOk, None};
ghost use Rattle.console.specs.Calls.{closed_model, loaded_with};
ghost use Rattle.console.specs.Rooms.{SameButClock};
ghost use Rattle.machine.specs.Runs.{Session};
ghost use Rattle.machine.specs.declared.call.Call.TheVariants.{Close, Peek, Run, Status};
ghost use Rattle.mixal.specs.Model.{assembled};
ghost use Rattle.rack.specs.Units.{EqualUnits};

use console::{Closed, JobFault, Loaded, assemble, calls_agree};
use mixal::Deck;
use rack::Rack;
use std::alloc::Global;

// A deck in a room where it is looked at on the way.
fn in_parts<R: Rack + Drop>(
    deck: Deck,
    rack: R,
    part: u32,
    rest: u32,
) -> Result<Closed<R>, JobFault>
    ensures { IfOk result (λ closed. Session R.holds R.tells (Run part ∷ (Peek 100 ∷ (Run rest ∷ (Close ∷ [])))) (loaded_with (assembled deck) (R.holds rack)) (closed_model R.holds closed)) }
{
    let mut loaded = Loaded::load(deck, rack);
    let _middle = loaded.run(part)?;
    let _word = loaded.peek(100)?;
    let _end = loaded.run(rest)?;
    match loaded.close() {
        Ok(closed) => Ok(closed),
        Err((_, fault)) => Err(fault),
    }
}

// A deck in a room where it runs in one piece.
fn at_once<R: Rack + Drop>(deck: Deck, rack: R, budget: u32) -> Result<Closed<R>, JobFault>
    ensures { IfOk result (λ closed. Session R.holds R.tells (Run budget ∷ (Status ∷ (Close ∷ []))) (loaded_with (assembled deck) (R.holds rack)) (closed_model R.holds closed)) }
{
    let mut loaded = Loaded::load(deck, rack);
    let _end = loaded.run(budget)?;
    let _status = loaded.status();
    match loaded.close() {
        Ok(closed) => Ok(closed),
        Err((_, fault)) => Err(fault),
    }
}

// One text in two rooms, with calls made by hand: if the units are equal and no mark was set in the first, the
// sheets are the same but for the CLOCK line.
pub fn by_hand<R: Rack + Drop, S: Rack + Drop>(
    heap: Global,
    text: &[u8],
    first: R,
    second: S,
) -> Result<(Closed<R>, Closed<S>), JobFault>
    ensures { IfOk result (λ rooms. EqualUnits (R.holds first) (S.holds second) → (closed_model R.holds rooms.0).mark ≡ None → SameButClock (closed_model R.holds rooms.0) (closed_model S.holds rooms.1)) }
{
    calls_agree::<R, S>();
    let first = in_parts(assemble(heap, text)?, first, 40, 1000)?;
    let second = at_once(assemble(heap, text)?, second, 1000)?;
    Ok((first, second))
}
