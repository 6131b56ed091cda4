ghost use Rattle.std.specs.Prelude.{◌≡◌, ◌<◌, ℕ, length, true};
ghost use Rattle.cpu.specs.Executed.{cells};
ghost use Rattle.cpu.specs.declared.registers.Registers.{Registers};
ghost use Rattle.rack.specs.Transfers.{After, perform};
ghost use Rattle.flights.specs.Flights.{carry, drain, first_due, given, sooner, states_in, units};
ghost use Rattle.flights.specs.Kept.{fits_unit};
ghost use Rattle.flights.specs.Stands.{CarriedTo, DrainedTo, core_in, memory_by, next_of};
ghost use Rattle.flights.specs.declared.flight.UnitState.TheVariants.{Busy};

use crate::due::{Broken, Due};
use crate::fault::Rejected;
use crate::flight::{Flight, UnitState};
use crate::flights::Flights;
use rack::{Rack, Transfer, Unit, UnitFault};
use word::Word;

// Of the transfer found so far and a unit's, the one that is due first, and not after a time.
fn earlier(by: u64, found: Option<Due>, number: u8, state: UnitState) -> Option<Due>
    ensures { next_of result ≡ sooner by (next_of found) number state }
{
    let UnitState::Busy(flight, time) = state else {
        return found;
    };
    let here = Due {
        unit: Unit { number },
        flight,
        time,
    };
    match found {
        None if time <= by => Some(here),
        Some(due) if time <= by && time < due.time => Some(here),
        _ => found,
    }
}

// A transfer is carried out on its unit, and fills its area or takes from it.
fn perform<R: Rack>(
    unit: Unit,
    flight: Flight,
    rack: &mut R,
    memory: &mut [Word; 4000],
) -> Result<(), UnitFault>
    requires { fits_unit unit.number flight ≡ true }
    ensures units { After unit (perform unit flight.transfer (given flight (cells memory.old)) (R.holds rack.old unit.number)) (R.holds rack.old) (R.holds rack.new) result }
    ensures memory { cells memory.new ≡ memory_by (perform unit flight.transfer (given flight (cells memory.old)) (R.holds rack.old unit.number)) flight (cells memory.old) }
    ensures all { length memory.new ≡ 4000 }
{
    let start = usize::from(flight.area.start);
    let end = start + usize::from(flight.area.count);
    match flight.transfer {
        Transfer::Take(block) => rack.take(unit, block, &mut memory[start..end]),
        Transfer::Put(block) => rack.put(unit, block, &memory[start..end]),
        Transfer::Shift(by) => rack.shift(unit, by),
    }
}

impl Flights {
    // The transfer that goes next, of those due by a time.
    fn first_due(&self, by: u64) -> Option<Due>
        ensures { next_of result ≡ first_due units by (states_in self.now.states) }
    {
        let mut found = None;
        for number in 0..19u8 {
            found = earlier(by, found, number, self.at(number));
        }
        found
    }

    // A unit's transfer is carried out; where it is rejected nothing changes.
    fn carry<R: Rack>(
        &mut self,
        due: Due,
        rack: &mut R,
        memory: &mut [Word; 4000],
    ) -> Result<(), Rejected>
        requires known { due.unit.number < units }
        requires busy { states_in self.old.states due.unit.number ≡ Busy due.flight due.time }
        ensures core { (r : Registers) → CarriedTo (carry (core_in r memory.old (R.holds rack.old) self.old.states) due.unit.number due.flight) (core_in r memory.old (R.holds rack.old) self.old.states) (core_in r memory.new (R.holds rack.new) self.new.states) result }
        ensures all { length memory.new ≡ 4000 }
    {
        match perform(due.unit, due.flight, rack, memory) {
            Ok(()) => {
                self.carried_out(due.unit.number);
                Ok(())
            }
            Err(fault) => Err(Rejected {
                location: due.flight.location,
                fault,
            }),
        }
    }

    // All transfers that are due by a time are carried out, in order, as far as they are accepted.
    #[inline(never)]
    fn drain<R: Rack>(
        &mut self,
        by: u64,
        rack: &mut R,
        memory: &mut [Word; 4000],
    ) -> Result<(), Broken>
        ensures core { (r : Registers) → DrainedTo (drain units by (core_in r memory.old (R.holds rack.old) self.old.states)) (core_in r memory.new (R.holds rack.new) self.new.states) result }
        ensures all { length memory.new ≡ 4000 }
    {
        for _turn in 0..19u32 {
            let Some(due) = self.first_due(by) else {
                return Ok(());
            };
            if let Err(rejected) = self.carry(due, rack, memory) {
                return Err(Broken {
                    due: due.time,
                    rejected,
                });
            }
        }
        Ok(())
    }

    // The same, with one test where nothing is due.
    #[inline(always)]
    pub fn catch_up<R: Rack>(
        &mut self,
        by: u64,
        rack: &mut R,
        memory: &mut [Word; 4000],
    ) -> Result<(), Broken>
        ensures core { (r : Registers) → DrainedTo (drain units by (core_in r memory.old (R.holds rack.old) self.old.states)) (core_in r memory.new (R.holds rack.new) self.new.states) result }
        ensures all { length memory.new ≡ 4000 }
    {
        if by < self.soonest {
            return Ok(());
        }
        let outcome = self.drain(by, rack, memory);
        self.refresh();
        outcome
    }
}
