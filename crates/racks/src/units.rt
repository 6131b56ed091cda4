ghost use Rattle.std.specs.Prelude.{◌≡◌};
ghost use Rattle.rack.specs.declared.request.Request.{Request};
ghost use Rattle.racks.specs.Sides.{side_by_side};

use crate::sides::SideBySide;
use rack::{Rack, Request, Standing, Unit, UnitFault};
use word::Word;

impl<L: Rack, R: Rack> SideBySide<L, R> {
    // Two racks side by side, split at a unit's number.
    pub fn new(left: L, split: u8, right: R) -> SideBySide<L, R>
        ensures holds { ⟦<SideBySide<L, R> as Rack>⟧.holds result ≡ side_by_side split (L.holds left) (R.holds right) }
        ensures times { (q : Request) → ⟦<SideBySide<L, R> as Rack>⟧.tells result q ≡ side_by_side split (λ _. L.tells left q) (λ _. R.tells right q) q.unit.number }
    {
        SideBySide { left, right, split }
    }
}

impl<L: Rack, R: Rack> Rack for SideBySide<L, R> {
    ghost use Rattle.std.specs.Prelude.{◌≤◌};
    ghost use Rattle.rack.specs.Units.{SoundIf, kind_of};
    ghost use Rattle.racks.specs.Sides.{side_by_side, on_both};

    ghost holds = { λ r. side_by_side r.split (L.holds r.left) (R.holds r.right) };

    ghost tells = { λ r q. side_by_side r.split (λ _. L.tells r.left q) (λ _. R.tells r.right q) q.unit.number };

    fn ask(&self, unit: Unit) -> Option<Standing> {
        if unit.number < self.split {
            self.left.ask(unit)
        } else {
            self.right.ask(unit)
        }
    }

    fn text(&self, unit: Unit, block: u16) -> [u8; 120] {
        if unit.number < self.split {
            self.left.text(unit, block)
        } else {
            self.right.text(unit, block)
        }
    }

    fn time(&mut self, request: Request) -> u16 {
        if request.unit.number < self.split {
            self.left.time(request)
        } else {
            self.right.time(request)
        }
    }

    fn take(&mut self, unit: Unit, block: u16, area: &mut [Word]) -> Result<(), UnitFault> {
        if unit.number < self.split {
            self.left.take(unit, block, area)
        } else {
            self.right.take(unit, block, area)
        }
    }

    fn put(&mut self, unit: Unit, block: u16, area: &[Word]) -> Result<(), UnitFault> {
        if unit.number < self.split {
            self.left.put(unit, block, area)
        } else {
            self.right.put(unit, block, area)
        }
    }

    fn shift(&mut self, unit: Unit, by: Word) -> Result<(), UnitFault> {
        if unit.number < self.split {
            self.left.shift(unit, by)
        } else {
            self.right.shift(unit, by)
        }
    }

    ghost bounded = { λ r q. on_both (λ t. t ≤ 65535) r.split q.unit.number (λ _. L.tells r.left q) (λ _. R.tells r.right q) (L.bounded r.left q) (R.bounded r.right q) };

    ghost sound = { λ r u. on_both (SoundIf (kind_of u)) r.split u (L.holds r.left) (R.holds r.right) (L.sound r.left u) (R.sound r.right u) };
}
