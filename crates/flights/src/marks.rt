ghost use Rattle.std.specs.Prelude.{◌≡◌};
ghost use Rattle.flights.specs.Watch.{kind_number};

use crate::mark::MarkKind;

impl MarkKind {
    // The number of the kind.
    pub fn number(self) -> u8
        ensures { result ≡ kind_number self }
    {
        self as u8
    }
}
