ghost use Rattle.std.specs.Prelude.{◌≡◌, ◌+◌, ◌*◌, ◌^◌, ◌<◌, ◌≤◌};
ghost use Rattle.machine.specs.Small.{Small};
ghost use Rattle.machine.specs.Steps.{telling, until, waited, worked};

use crate::counts::Counts;

impl Counts {
    // All at 0.
    pub(crate) fn zero() -> Counts
        ensures { result ≡ record { clock = 0; working_time = 0; waiting = 0; told = 0; granted = 0; working_steps = 0; waiting_steps = 0 } }
    {
        Counts {
            clock: 0,
            working_time: 0,
            waiting: 0,
            told: 0,
            granted: 0,
            working_steps: 0,
            waiting_steps: 0,
        }
    }

    // A working step of a time.
    #[inline(always)]
    pub(crate) fn work(&mut self, time: u32)
        requires { Small (2 ^ 63) self.old }
        ensures { self.new ≡ worked time self.old }
    {
        self.clock += u64::from(time);
        self.working_time += u64::from(time);
        self.working_steps += 1;
    }

    // A waiting step of a time.
    pub(crate) fn wait(&mut self, time: u32)
        requires { Small (2 ^ 63) self.old }
        ensures { self.new ≡ waited time self.old }
    {
        self.clock += u64::from(time);
        self.waiting += 1;
        self.waiting_steps += 1;
    }

    // A wait until a time.
    pub(crate) fn wait_until(&mut self, time: u64)
        requires small { Small (2 ^ 62) self.old }
        requires soon { time < 2 ^ 62 }
        ensures { self.new ≡ until time self.old }
    {
        self.waiting += time.saturating_sub(self.clock);
        self.clock = time;
    }

    // A time that was told.
    pub(crate) fn tell(&mut self, time: u16)
        requires { self.old.told < 2 ^ 127 }
        ensures { self.new ≡ telling time self.old }
    {
        self.told += u128::from(time);
    }
}
