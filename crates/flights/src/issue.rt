ghost use Rattle.std.specs.Prelude.{◌≡◌, ◌<◌, true};
ghost use Rattle.flights.specs.Flights.{units};
ghost use Rattle.flights.specs.Kept.{fits_unit};

use crate::flight::Flight;
use rack::Unit;

// A transfer that may be issued of a unit.
#[derive(Clone, Copy)]
pub struct Issue {
    pub unit: Unit,
    pub flight: Flight,
    ghost known: { unit.number < units },
    ghost fits: { fits_unit unit.number flight ≡ true },
}
