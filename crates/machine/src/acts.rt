ghost use Rattle.std.specs.Prelude.{◌≡◌, ◌^◌, ◌<◌, cond, not, true, Ok};
ghost use Rattle.cpu.specs.Executed.{cells};
ghost use Rattle.cpu.specs.Instructions.{along, jump_to};
ghost use Rattle.cpu.specs.Registers.{going_to, onward};
ghost use Rattle.flights.specs.Flights.{states_in};
ghost use Rattle.machine.specs.Acts.{Finds, ended};
ghost use Rattle.machine.specs.Model.{core_of, stands};
ghost use Rattle.machine.specs.Small.{Small};
ghost use Rattle.machine.specs.Steps.{j_word, paused, tested, unsettled, went};

use crate::j::J;
use crate::parts::Parts;
use crate::turn::Turn;
use cpu::Registers;
use flights::{Fault, Mark, MarkKind, UnitState};
use rack::{Rack, Unit};
use word::{Sign, Word};

impl J {
    // A location that is settled.
    #[inline(always)]
    pub(crate) fn settled(location: u16) -> J
        ensures { result ≡ record { location = location; settled = true } }
    {
        J {
            location,
            settled: true,
        }
    }

    // J as a word.
    #[inline(always)]
    pub(crate) fn word(self) -> Word
        ensures { result ≡ j_word self }
    {
        Word::wrapping(Sign::Plus, u64::from(self.location))
    }

    // A location that is not settled.
    pub(crate) fn unsettled(location: u16) -> J
        ensures { result ≡ unsettled location }
    {
        J {
            location,
            settled: false,
        }
    }
}

// Where a test goes on: with a jump to a number, which must be a location, or with the next instruction.
fn turn(registers: Registers, jumps: bool, to: Word) -> Result<Turn, cpu::Fault>
    requires { registers.location < 4000 }
    ensures { Finds registers (cond jumps (jump_to to registers) (Ok (along registers))) result }
{
    let next = registers.location + 1;
    if !jumps {
        return Ok(Turn {
            jump: None,
            location: next,
        });
    }
    let below = to.sign == Sign::Minus && to.magnitude != 0;
    if below || to.magnitude >= 4000 {
        return Err(cpu::Fault::Outside(to));
    }
    Ok(Turn {
        jump: Some(next),
        location: to.magnitude as u16,
    })
}

impl<R: Rack> Parts<R> {
    // A working step that goes on, the registers and the memory after it being there already.
    #[inline(always)]
    pub(crate) fn go(&mut self, time: u32, jump: Option<u16>, mark: Option<Mark>)
        requires { Small (2 ^ 63) self.old.counts }
        ensures { stands R.holds self.new ≡ went (stands R.holds self.old) (core_of R.holds self.old) (cells self.old.processor.memory) time (record { jump = jump; registers = self.old.processor.registers }) mark }
    {
        if let Some(location) = jump {
            self.j = J::settled(location);
        }
        self.counts.work(time);
        self.mark = mark;
    }

    // JBUS to itself: it waits while the unit is busy; else the unit is acknowledged.
    #[inline(never)]
    pub(crate) fn pause(&mut self, time: u32, unit: Unit, mark: Option<Mark>)
        requires small { Small (2 ^ 63) self.old.counts }
        requires here { self.old.processor.registers.location < 4000 }
        ensures { stands R.holds self.new ≡ paused (stands R.holds self.old) (core_of R.holds self.old) time unit.number (onward self.old.processor.registers) mark (states_in self.old.flights.states unit.number) }
    {
        let next = self.processor.registers.location + 1;
        match self.flights.state(unit) {
            UnitState::Idle => self.processor.registers.location = next,
            UnitState::Busy(_, _) => {
                self.j = J::unsettled(next);
                self.counts.wait(time);
                self.mark = mark;
                return;
            }
            UnitState::Done(_) => {
                self.flights.acknowledge(unit);
                self.j = J::unsettled(self.j.location);
                self.processor.registers.location = next;
            }
        }
        self.counts.work(time);
        self.mark = mark;
    }

    // A working step after a test.
    fn follow(&mut self, time: u32, turn: Turn, mark: Option<Mark>)
        requires { Small (2 ^ 63) self.old.counts }
        ensures { stands R.holds self.new ≡ went (stands R.holds self.old) (core_of R.holds self.old) (cells self.old.processor.memory) time (record { jump = turn.jump; registers = going_to turn.location self.old.processor.registers }) mark }
    {
        self.processor.registers.location = turn.location;
        self.go(time, turn.jump, mark);
    }

    // JRED, and JBUS to another location, which jumps if the unit is busy: an open unit is marked, and one that
    // is not busy is acknowledged.
    #[inline(never)]
    pub(crate) fn test(
        &mut self,
        time: u32,
        unit: Unit,
        on_busy: bool,
        to: Word,
        mark: Option<Mark>,
    ) -> Result<(), Fault>
        requires small { Small (2 ^ 63) self.old.counts }
        requires here { self.old.processor.registers.location < 4000 }
        ensures { let r = self.old.processor.registers in ended result (stands R.holds self.new) ≡ tested (stands R.holds self.old) (core_of R.holds self.old) (cells self.old.processor.memory) time unit.number (cond on_busy (jump_to to r) (Ok (along r))) (cond (not on_busy) (jump_to to r) (Ok (along r))) mark (states_in self.old.flights.states unit.number) }
    {
        let registers = self.processor.registers;
        let polled = Mark {
            kind: MarkKind::UnitPolled,
            unit,
            location: registers.location,
        };
        match self.flights.state(unit) {
            UnitState::Idle => {
                let turn = turn(registers, !on_busy, to)?;
                self.follow(time, turn, mark);
            }
            UnitState::Busy(_, _) => {
                let turn = turn(registers, on_busy, to)?;
                self.follow(time, turn, mark.or(Some(polled)));
            }
            UnitState::Done(_) => {
                let turn = turn(registers, !on_busy, to)?;
                self.flights.acknowledge(unit);
                self.follow(time, turn, mark.or(Some(polled)));
            }
        }
        Ok(())
    }
}
