ghost use Rattle.std.specs.Prelude.{◌≡◌, ◌++◌, IfOk, OnOk};
ghost use Rattle.card.specs.Lines.{cards_of};
ghost use Rattle.console.specs.Calls.{loaded_with};
ghost use Rattle.job_rack.specs.Units.{job_units};
ghost use Rattle.jobs.specs.Jobs.{time_of};
ghost use Rattle.mixal.specs.Model.{assembled};
ghost use Rattle.rack.specs.Units.{Holdings};
ghost use Rattle.rack.specs.declared.request.Request.{Request};
ghost use Rattle.room_jobs.specs.Differences.{differences};
ghost use Rattle.room_jobs.specs.TwoRooms.{RoomsPrinted, RunsBeside, told_differences};

use crate::comparing::differences;
use crate::outcomes::Outcome;
use console::{JobFault, assemble, two_rooms};
use job_rack::{RoomRack, Settings, job_rack, room_rack};
use jobs::reject_line;
use machine::Call;
use mixal::Deck;
use paper::first_cards;
use rack::Rack;
use std::alloc::{AllocError, Global};

// The deck at the front of the input is run with the data cards after it, in the first room and in one with times
// that are set, and the two outcomes are compared; or only its rejection is told.
pub fn report<'t>(heap: Global, times: Settings, input: &'t [u8]) -> Result<Vec<u8>, AllocError>
    ensures { IfOk result (λ v. RoomsPrinted ⟦<RoomRack<'t> as Rack>⟧.holds ⟦<RoomRack<'t> as Rack>⟧.tells input.now v.items) }
{
    match assemble(heap, input) {
        Ok(deck) => {
            let (_, cards) = first_cards(input, deck.cards());
            job_rooms(heap, &deck, times, cards)
        }
        Err(JobFault::Rejected(rejection)) => reject_line(heap, rejection),
        // Nothing else is wanting of a deck but memory.
        Err(_) => Err(AllocError),
    }
}

// The units of the first room and of the second, with the cards in their readers.
fn job_rooms<'t>(
    heap: Global,
    deck: &Deck,
    times: Settings,
    cards: &'t [u8],
) -> Result<Vec<u8>, AllocError>
    ensures { IfOk result (λ v. RunsBeside ⟦<RoomRack<'t> as Rack>⟧.holds ⟦<RoomRack<'t> as Rack>⟧.tells (loaded_with (assembled deck.now) (job_units (cards_of cards.now))) v.items) }
{
    let first = job_rack(heap, cards)?;
    let second = room_rack(heap, cards, times)?;
    rooms_text(heap, deck, first, second)
}

// Ten runs in each room, and what is told of them.
fn rooms_text<R: Rack + Drop, S: Rack + Drop>(
    heap: Global,
    deck: &Deck,
    first: R,
    second: S,
) -> Result<Vec<u8>, AllocError>
    requires times { (r : R) (q : Request) → R.tells r q ≡ time_of q }
    ensures { (u : Holdings) → R.holds first ≡ u → S.holds second ≡ u
        → IfOk result (λ v. RunsBeside S.holds S.tells (loaded_with (assembled deck.now) u) v.items) }
{
    let runs = [Call::Run(1_000_000); 10];
    let (first, second) = two_rooms(deck, first, &runs, second, &runs);
    compared_text(heap, Outcome::of(heap, first)?, Outcome::of(heap, second)?)
}

// What comes of the first room, whether the watch vouches for it, and where the second differs.
fn compared_text(heap: Global, first: Outcome, second: Outcome) -> Result<Vec<u8>, AllocError>
    ensures { IfOk result (λ v. v.items ≡ first.told.items
        ++ (first.verdict.items ++ told_differences (differences first.compared.items second.compared.items))) }
{
    let mut out = first.told;
    out.extend_from_slice(&first.verdict)?;
    let lines = differences(heap, &first.compared, &second.compared)?;
    add_differences(&mut out, &lines)?;
    Ok(out)
}

// Adds the differences, or that there are none.
fn add_differences(out: &mut Vec<u8>, lines: &[u8]) -> Result<(), AllocError>
    ensures { OnOk result (out.new.items ≡ out.old.items ++ told_differences lines.now) }
{
    match lines {
        [] => out.extend_from_slice(b"SAME but for the clock\n"),
        _ => out.extend_from_slice(lines),
    }
}
