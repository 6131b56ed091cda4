ghost use Rattle.std.specs.Prelude.{◌≡◌};
ghost use Rattle.console.specs.Calls.{loaded_model, loaded_with, room_model};
ghost use Rattle.console.specs.Rooms.{OneDeck, SheetsAgree};
ghost use Rattle.machine.specs.Runs.{Made, Session};
ghost use Rattle.mixal.specs.Model.{assembled};
ghost use Rattle.rack.specs.Units.{EqualUnits};
ghost use Rattle.rooms.specs.Rooms.{Both};

use crate::loaded::Loaded;
use crate::room::Room;
use machine::Call;
use mixal::Deck;
use rack::Rack;

// One deck in two rooms, and in each a list of calls, up to an accepted close.
pub fn two_rooms<R: Rack, S: Rack>(
    deck: &Deck,
    first: R,
    first_calls: &[Call],
    second: S,
    second_calls: &[Call],
) -> (Room<R>, Room<S>)
    ensures first { Session R.holds R.tells first_calls.now (loaded_with (assembled deck.now) (R.holds first)) (room_model R.holds result.0) }
    ensures second { Session S.holds S.tells second_calls.now (loaded_with (assembled deck.now) (S.holds second)) (room_model S.holds result.1) }
    ensures both { EqualUnits (R.holds first) (S.holds second) → Both (room_model R.holds result.0) (room_model S.holds result.1) }
    ensures sheets { EqualUnits (R.holds first) (S.holds second) → SheetsAgree (room_model R.holds result.0) (room_model S.holds result.1) }
{
    let first = in_room(deck, first, first_calls);
    let second = in_room(deck, second, second_calls);
    (first, second)
}

// The same for calls that are made one by one, by whoever loads the deck: each call's own contract says that it
// is a call of a `Session`.
pub fn calls_agree<R: Rack, S: Rack>()
    ensures { OneDeck R.holds R.tells S.holds S.tells }
{}

// A deck in a room, and the calls that are made there.
fn in_room<R: Rack>(deck: &Deck, rack: R, calls: &[Call]) -> Room<R>
    ensures { Session R.holds R.tells calls.now (loaded_with (assembled deck.now) (R.holds rack)) (room_model R.holds result) }
{
    Loaded::start(deck, rack).make(calls)
}

impl<R: Rack> Loaded<R> {
    // Makes the calls one after the other; what they answer is let go. After an accepted close none is made.
    pub fn make(self, calls: &[Call]) -> Room<R>
        ensures { Session R.holds R.tells calls.now (loaded_model R.holds self) (room_model R.holds result) }
    {
        let mut room = Room::Open(self);
        for call in calls {
            room = room.after(*call);
        }
        room
    }
}

impl<R: Rack> Room<R> {
    // One call more.
    fn after(self, call: Call) -> Room<R>
        ensures { Made R.holds R.tells call (room_model R.holds self) (room_model R.holds result) }
    {
        let Room::Open(mut loaded) = self else {
            return self;
        };
        match call {
            Call::Run(budget) => {
                let _ = loaded.run(budget);
                Room::Open(loaded)
            }
            Call::Peek(location) => {
                let _ = loaded.peek(location);
                Room::Open(loaded)
            }
            Call::Status => {
                let _ = loaded.status();
                Room::Open(loaded)
            }
            Call::Close => match loaded.close() {
                Ok(closed) => Room::Closed(closed),
                Err((loaded, _)) => Room::Open(loaded),
            },
        }
    }
}
