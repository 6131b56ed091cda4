ghost use Rattle.std.specs.Prelude.{◌≡◌, ℕ, length, true};
ghost use Rattle.flights.specs.Flights.{opened, states_in};
ghost use Rattle.flights.specs.Kept.{between, due_from, fits_if};

use crate::flight::UnitState;

// The states of the units, by their numbers.
#[derive(Drop)]
pub struct Flights {
    pub(crate) states: [UnitState; 19],
    // no transfer is due before this
    pub(crate) soonest: u64,
    // no area is open but from the first location to before the second
    pub(crate) low: u16,
    pub(crate) high: u16,
    ghost all: { length states ≡ 19 },
    ghost fits: { (u : ℕ) → fits_if u (opened (states_in states u)) ≡ true },
    ghost early: { (u : ℕ) → due_from soonest (states_in states u) ≡ true },
    ghost spanned: { (u : ℕ) → between low high (opened (states_in states u)) ≡ true },
}
