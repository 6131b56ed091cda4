ghost use Rattle.std.specs.Prelude.{◌≡◌};
ghost use Rattle.job_rack.specs.Settings.{Small, is_job_unit};

use crate::times::{JobTimes, Times};
use rack::Unit;

// The times of the units as they are set; a unit whose time is not set has double its time in a job.
#[derive(Clone, Copy, Debug)]
pub struct Settings {
    pub(crate) set: [Option<u16>; 19],
    ghost small: { Small set },
}

// Why a time is not set: a job has no such unit, or the unit's time was set before.
#[derive(Clone, Copy, PartialEq, Eq, Debug)]
pub enum NotSet {
    NoUnit,
    SetBefore,
}

impl Settings {
    ghost use Rattle.job_rack.specs.Settings.{Sets, no_settings};
    ghost use Rattle.job_rack.specs.SetTimes.{set_times};

    // No time is set.
    pub fn new() -> Settings
        ensures { set_times result ≡ no_settings }
    {
        Settings { set: [None; 19] }
    }

    // Sets the time of a unit of the job, once.
    pub fn set(&mut self, unit: Unit, time: u16) -> Result<(), NotSet>
        ensures { Sets (set_times self.old) unit.number time (set_times self.new) result }
    {
        if !is_job_unit(unit) {
            return Err(NotSet::NoUnit);
        }
        let place = usize::from(unit.number);
        if self.set[place].is_some() {
            return Err(NotSet::SetBefore);
        }
        self.set[place] = Some(time);
        Ok(())
    }
}

impl Times for Settings {
    ghost use Rattle.job_rack.specs.Settings.{time_set, settings_fit};

    ghost told = { λ s u. time_set s.set u };

    fn time(&self, unit: Unit) -> u16 {
        let set = self.set.get(usize::from(unit.number));
        match set {
            Some(Some(time)) => *time,
            _ => 2 * JobTimes.time(unit),
        }
    }

    ghost fit = { λ s u. settings_fit s.set s.small u };
}

// Whether a unit is one of a job's.
fn is_job_unit(unit: Unit) -> bool
    ensures { result ≡ is_job_unit unit.number }
{
    matches!(unit.number, 0 | 1 | 8 | 16 | 17 | 18)
}
