ghost use Rattle.std.specs.Prelude.{◌≡◌, ◌≤◌, ℕ};

use rack::Unit;

// The times of units' transfers.
pub trait Times {
    // The time of each transfer of a unit, by the unit's number.
    ghost told: { Self → ℕ → ℕ };

    // The time of each transfer of a unit.
    fn time(&self, unit: Unit) -> u16
        ensures { result ≡ told self.now unit.number };

    // A time fits what tells it.
    ghost fit: { (t : Self) (u : ℕ) → told t u ≤ 65535 };
}

// The times of a job.
#[derive(Clone, Copy, PartialEq, Eq, Debug)]
pub struct JobTimes;

impl Times for JobTimes {
    ghost use Rattle.job_rack.specs.Units.{job_time, times_fit};

    ghost told = { λ _ u. job_time u };

    fn time(&self, unit: Unit) -> u16 {
        match unit.number {
            8 => 30,
            16 => 80,
            17 => 100,
            18 => 60,
            _ => 20,
        }
    }

    ghost fit = { λ _ u. times_fit u };
}
