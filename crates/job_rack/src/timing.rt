use crate::timed::Timed;
use crate::times::Times;
use rack::{Rack, Request, Standing, Unit, UnitFault};
use word::Word;

impl<T: Times, R: Rack> Rack for Timed<T, R> {
    ghost holds = { λ r. R.holds r.rack };

    ghost tells = { λ r q. T.told r.times q.unit.number };

    fn ask(&self, unit: Unit) -> Option<Standing> {
        self.rack.ask(unit)
    }

    fn text(&self, unit: Unit, block: u16) -> [u8; 120] {
        self.rack.text(unit, block)
    }

    fn time(&mut self, request: Request) -> u16 {
        self.times.time(request.unit)
    }

    fn take(&mut self, unit: Unit, block: u16, area: &mut [Word]) -> Result<(), UnitFault> {
        self.rack.take(unit, block, area)
    }

    fn put(&mut self, unit: Unit, block: u16, area: &[Word]) -> Result<(), UnitFault> {
        self.rack.put(unit, block, area)
    }

    fn shift(&mut self, unit: Unit, by: Word) -> Result<(), UnitFault> {
        self.rack.shift(unit, by)
    }

    ghost bounded = { λ r q. T.fit r.times q.unit.number };

    ghost sound = { λ r u. R.sound r.rack u };
}
