ghost use Rattle.std.specs.Prelude.{◌≡◌, ◌||◌, ◌∷◌, Some};
ghost use Rattle.cpu.specs.Executed.{locations};
ghost use Rattle.flights.specs.Flights.{covers, overlap, puts, takes};
ghost use Rattle.flights.specs.Watch.{meets, touches_input, writes_output};

use crate::flight::Flight;
use cpu::Span;
use rack::Transfer;

// Whether a location lies in an area.
#[tactic(auto, unfolding(crate::specs::Flights::covers))]
fn covers(area: Span, location: u16) -> bool
    ensures { result ≡ covers area location }
{
    area.start <= location && u32::from(location) < u32::from(area.start) + u32::from(area.count)
}

// Whether two areas have a location in common.
#[tactic(auto, unfolding(crate::specs::Flights::overlap))]
fn overlap(one: Span, other: Span) -> bool
    ensures { result ≡ overlap one other }
{
    one.count > 0
        && other.count > 0
        && u32::from(one.start) < u32::from(other.start) + u32::from(other.count)
        && u32::from(other.start) < u32::from(one.start) + u32::from(one.count)
}

// Whether an instruction at a location touches an area.
fn touches(area: Span, location: u16, reads: Span, writes: Span) -> bool
    ensures { result ≡ (covers area location || overlap area reads || overlap area writes) }
{
    covers(area, location) || overlap(area, reads) || overlap(area, writes)
}

impl Flight {
    // Whether the transfer fills its area.
    pub(crate) fn takes(self) -> bool
        ensures { result ≡ takes self.transfer }
    {
        matches!(self.transfer, Transfer::Take(_))
    }

    // Whether it writes its area on the unit.
    pub(crate) fn puts(self) -> bool
        ensures { result ≡ puts self.transfer }
    {
        matches!(self.transfer, Transfer::Put(_))
    }

    // Whether an instruction at a location touches the area, which an open IN will fill.
    #[tactic(auto, using(crate::proofs::Watching::input_touched))]
    pub(crate) fn is_touched(self, location: u16, reads: Span, writes: Span) -> bool
        ensures { result ≡ touches_input (location ∷ locations reads) (locations writes) (Some self) }
    {
        self.takes() && touches(self.area, location, reads, writes)
    }

    // Whether words that are written lie in the area, which an open OUT will write on its unit.
    #[tactic(auto, using(crate::proofs::Watching::output_written))]
    pub(crate) fn is_written(self, writes: Span) -> bool
        ensures { result ≡ writes_output (locations writes) (Some self) }
    {
        self.puts() && overlap(self.area, writes)
    }

    // Whether the areas of two transfers meet, one of them an IN.
    pub(crate) fn meets(self, other: Flight) -> bool
        ensures { result ≡ meets self (Some other) }
    {
        (self.takes() || other.takes()) && overlap(self.area, other.area)
    }
}
