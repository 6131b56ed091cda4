ghost use Rattle.std.specs.Prelude.{◌≡◌, ◌^◌, ◌<◌};
ghost use Rattle.cpu.specs.Registers.{onward};
ghost use Rattle.flights.specs.Flights.{drain, last_due, states_in, units};
ghost use Rattle.flights.specs.Issues.{flight_if};
ghost use Rattle.machine.specs.Acts.{Came, Launched, ended};
ghost use Rattle.machine.specs.Model.{core_of, stands};
ghost use Rattle.machine.specs.Small.{Low, Small};
ghost use Rattle.machine.specs.Steps.{halted, issued_if};
ghost use Rattle.rack.specs.Units.{kind_of};

use crate::parts::Parts;
use crate::phase::Phase;
use flights::{Fault, Flights, Issue, Mark};
use rack::{Rack, Request, Transfer, Unit};
use word::Word;

impl<R: Rack> Parts<R> {
    // A transfer is issued at the clock, and the rack tells its time.
    fn launch(&mut self, time: u32, issue: Issue, mark: Option<Mark>)
        requires small { Small (2 ^ 63) self.old.counts }
        requires here { self.old.processor.registers.location < 4000 }
        ensures { Launched R.holds R.tells time issue.unit (onward self.old.processor.registers) mark issue.flight (stands R.holds self.old) (stands R.holds self.new) }
    {
        let met = self.flights.meet_mark(issue.unit, issue.flight);
        let told = self.rack.time(Request {
            unit: issue.unit,
            transfer: issue.flight.transfer,
        });
        let due = self.counts.clock + u64::from(time) + u64::from(told);
        self.flights.issue(issue, due);
        self.counts.work(time);
        self.counts.tell(told);
        self.mark = mark.or(met);
        self.processor.registers.location += 1;
    }

    // IN, OUT and IOC: the unit's transfer under way is waited for, and then the new one is issued.
    #[inline(never)]
    pub(crate) fn issue(
        &mut self,
        time: u32,
        unit: Unit,
        transfer: Transfer,
        from: Word,
        mark: Option<Mark>,
    ) -> Result<(), Fault>
        requires low { Low (2 ^ 61) (stands R.holds self.old) }
        requires here { self.old.processor.registers.location < 4000 }
        ensures { let r = self.old.processor.registers in Came R.holds R.tells (issued_if (stands R.holds self.old) (core_of R.holds self.old) time unit (onward r) mark (flight_if unit transfer from r.location (R.holds self.old.rack unit.number) (kind_of unit.number))) result (stands R.holds self.new) }
    {
        let location = self.processor.registers.location;
        let issue = Issue::new(&self.rack, unit, transfer, from, location)?;
        let ready = self.flights.state(unit).later(self.counts.clock);
        self.wait(ready)?;
        self.launch(time, issue, mark);
        Ok(())
    }

    // HLT: all transfers under way are waited for; then all units are acknowledged, and the machine halts.
    #[inline(never)]
    pub(crate) fn halt(&mut self, time: u32, mark: Option<Mark>) -> Result<(), Fault>
        requires low { Low (2 ^ 61) (stands R.holds self.old) }
        requires here { self.old.processor.registers.location < 4000 }
        ensures { let now = last_due units self.old.counts.clock (states_in self.old.flights.states) in ended result (stands R.holds self.new) ≡ halted (stands R.holds self.old) now time (onward self.old.processor.registers) mark (drain units now (core_of R.holds self.old)) }
    {
        let ready = self.flights.last_due(self.counts.clock);
        self.wait(ready)?;
        self.flights = Flights::new();
        self.processor.registers.location += 1;
        self.counts.work(time);
        self.mark = mark;
        self.phase = Phase::Halted;
        Ok(())
    }
}
