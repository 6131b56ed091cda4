ghost use Rattle.std.specs.Prelude.{◌≡◌, ◌^◌, ◌<◌};
ghost use Rattle.flights.specs.Flights.{drain, units};
ghost use Rattle.machine.specs.Acts.{WaitedTo};
ghost use Rattle.machine.specs.Model.{core_of, stands};
ghost use Rattle.machine.specs.Small.{Small};

use crate::parts::Parts;
use flights::Fault;
use rack::Rack;

impl<R: Rack> Parts<R> {
    // A wait until a time; a transfer may be rejected on the way.
    pub(crate) fn wait(&mut self, time: u64) -> Result<(), Fault>
        requires small { Small (2 ^ 62) self.old.counts }
        requires soon { time < 2 ^ 62 }
        ensures registers { self.new.processor.registers ≡ self.old.processor.registers }
        ensures machine { WaitedTo (drain units time (core_of R.holds self.old)) time (stands R.holds self.old) (stands R.holds self.new) result }
    {
        match self
            .flights
            .catch_up(time, &mut self.rack, &mut self.processor.memory)
        {
            Ok(()) => {
                self.counts.wait_until(time);
                Ok(())
            }
            Err(broken) => {
                self.counts.wait_until(broken.due);
                Err(Fault::Transfer(broken.rejected))
            }
        }
    }
}
