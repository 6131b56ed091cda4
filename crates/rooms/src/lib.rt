// The law of two rooms: an unmarked deck does not hang on the times of the units.
#![tactic(auto)]

ghost use Rattle.machine.specs.Model.{model};
ghost use Rattle.machine.specs.Runs.{Session};
ghost use Rattle.machine.specs.declared.call.Call.{Call};
ghost use Rattle.machine.specs.declared.machine.Machine.{Machine as Stands};
ghost use Rattle.rooms.specs.Rooms.{Fresh, Both};
ghost use Rattle.std.specs.Prelude.{◌≡◌, List};

use rack::Rack;

// Machines that began alike in two rooms, and where any lists of calls led them.
pub fn rooms_agree<R: Rack, S: Rack>()
    ensures { (m₀ m : Stands R) (n₀ n : Stands S) (cs ds : List Call)
        → Fresh (model R.holds m₀)
        → model R.holds m₀ ≡ model S.holds n₀
        → Session R.holds R.tells cs (model R.holds m₀) (model R.holds m)
        → Session S.holds S.tells ds (model S.holds n₀) (model S.holds n)
        → Both (model R.holds m) (model S.holds n) }
{}
