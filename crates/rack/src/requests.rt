ghost use Rattle.std.specs.Prelude.{◌≡◌, ◌≢◌, ℕ, OnOk, OnErr};
ghost use Rattle.std.specs.Result.{result_err};
ghost use Rattle.rack.specs.Laws.{first_cause, TakenAgain};
ghost use Rattle.rack.specs.Transfers.{After, perform, received};

use crate::fault::UnitFault;
use crate::rack::Rack;
use crate::request::{Request, Transfer};
use word::Word;

// Carries out what is asked of a unit: reads into an area, writes from it, or moves.
pub fn carry_out<R: Rack>(
    rack: &mut R,
    request: Request,
    area: &mut [Word],
) -> Result<(), UnitFault>
    ensures units { After request.unit (perform request.unit request.transfer area.old (R.holds rack.old request.unit.number)) (R.holds rack.old) (R.holds rack.new) result }
    ensures area { area.new ≡ received (perform request.unit request.transfer area.old (R.holds rack.old request.unit.number)) area.old }
    // The first of the causes of rejection is told, where one holds.
    ensures causes { result_err result ≡ first_cause request.unit request.transfer (R.holds rack.old request.unit.number) }
    // A rejected call alters nothing, and no call another unit.
    ensures rejected { OnErr result ((R.holds rack.new ≡ R.holds rack.old) × (area.new ≡ area.old)) }
    ensures others { (u : ℕ) → u ≢ request.unit.number → R.holds rack.new u ≡ R.holds rack.old u }
    ensures again { OnOk result (TakenAgain request.unit request.transfer area.old (R.holds rack.old request.unit.number) (R.holds rack.new request.unit.number)) }
{
    match request.transfer {
        Transfer::Take(block) => rack.take(request.unit, block, area),
        Transfer::Put(block) => rack.put(request.unit, block, area),
        Transfer::Shift(by) => rack.shift(request.unit, by),
    }
}
