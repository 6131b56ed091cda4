ghost use Rattle.std.specs.Prelude.{◌≡◌, ◌^◌, ◌&&◌, ◌∷◌, cond, not, None, Some};
ghost use Rattle.cpu.specs.Executed.{cells, locations, said};
ghost use Rattle.flights.specs.Flights.{opened, states_in};
ghost use Rattle.std.specs.Option.{option_or};
ghost use Rattle.flights.specs.Watch.{j_mark, touch_mark};
ghost use Rattle.machine.specs.Acts.{Came, Here};
ghost use Rattle.machine.specs.Model.{core_of, stands};
ghost use Rattle.machine.specs.Runs.{Comes};
ghost use Rattle.machine.specs.Small.{Low};
ghost use Rattle.machine.specs.Steps.{act, step};
ghost use Rattle.machine.specs.declared.phase.Phase.TheVariants.{Running};

use crate::parts::Parts;
use crate::phase::Phase;
use cpu::{Next, Step};
use flights::{Fault, Mark, MarkKind};
use rack::{Rack, Unit};

impl<R: Rack> Parts<R> {
    // What comes of an instruction that was executed.
    #[inline(always)]
    fn act(&mut self, step: Step, mark: Option<Mark>) -> Result<(), Fault>
        requires low { Low (2 ^ 61) (stands R.holds self.old) }
        requires here { Here step.next self.old.processor.registers.location }
        ensures { Came R.holds R.tells (act (stands R.holds self.old) (core_of R.holds self.old) (cells self.old.processor.memory) mark (said step.time step.next self.old.processor.registers)) result (stands R.holds self.new) }
    {
        match step.next {
            Next::Goes(jump) => {
                self.go(step.time, jump, mark);
                Ok(())
            }
            Next::Tests(unit, on_busy, to) => self.test(step.time, unit, on_busy, to, mark),
            Next::Waits(unit) => {
                self.pause(step.time, unit, mark);
                Ok(())
            }
            Next::Issues(unit, transfer, from) => {
                self.issue(step.time, unit, transfer, from, mark)
            }
            Next::Halts => self.halt(step.time, mark),
        }
    }

    // The mark after an instruction at a location was executed: the first one, for what it touches or for J.
    #[inline(always)]
    fn watch(&self, location: u16, step: Step) -> Option<Mark>
        ensures { result ≡ option_or self.now.mark (option_or (touch_mark (λ u. opened (states_in self.now.flights.states u)) (location ∷ locations step.reads) (locations step.writes) location) (cond (not self.now.j.settled && step.takes_j) (Some (j_mark location)) None)) }
    {
        if self.mark.is_some() {
            return self.mark;
        }
        if let Some(mark) = self.flights.touch_mark(location, step.reads, step.writes) {
            return Some(mark);
        }
        if step.takes_j && !self.j.settled {
            return Some(Mark {
                kind: MarkKind::JStored,
                unit: Unit { number: 0 },
                location,
            });
        }
        None
    }

    // What is due is carried out, and then the next instruction is executed.
    #[inline(always)]
    fn advance(&mut self) -> Result<(), Fault>
        requires low { Low (2 ^ 60) (stands R.holds self.old) }
        requires runs { self.old.phase ≡ Running }
        ensures { Came R.holds R.tells (step (stands R.holds self.old)) result (stands R.holds self.new) }
    {
        self.flights.catch_up(
            self.counts.clock,
            &mut self.rack,
            &mut self.processor.memory,
        )?;
        let location = self.processor.registers.location;
        let step = self.processor.execute(self.j.word())?;
        if let Next::Goes(jump) = step.next {
            let mark = self.watch(location, step);
            self.go(step.time, jump, mark);
            return Ok(());
        }
        let mark = self.watch(location, step);
        self.act(step, mark)
    }

    // One step; a machine that has stopped stays as it is.
    #[inline(always)]
    pub(crate) fn step(&mut self)
        requires { Low (2 ^ 60) (stands R.holds self.old) }
        ensures { Comes R.holds R.tells (step (stands R.holds self.old)) (stands R.holds self.new) }
    {
        if let Phase::Running = self.phase {
            if let Err(fault) = self.advance() {
                self.phase = Phase::Faulted(fault);
            }
        }
    }
}
