ghost use Rattle.std.specs.Prelude.{◌≡◌, ◌<◌, ◌∷◌, not, ◌&&◌, ◌==◌};
ghost use Rattle.std.specs.Option.{option_map};
ghost use Rattle.cpu.specs.Executed.{locations};
ghost use Rattle.flights.specs.Flights.{opened, states_in, unit_at, units};
ghost use Rattle.flights.specs.Kept.{outside};
ghost use Rattle.flights.specs.Watch.{first_unit, meet_mark, meets, touch_mark, touches_input, writes_output};

use crate::flight::{Flight, UnitState};
use crate::flights::Flights;
use crate::mark::{Mark, MarkKind};
use cpu::Span;
use rack::Unit;

impl UnitState {
    // Whether an instruction at a location touches the area of an open IN.
    #[tactic(auto, using(crate::proofs::Watching::untouched))]
    fn is_touched(self, location: u16, reads: Span, writes: Span) -> bool
        ensures { result ≡ touches_input (location ∷ locations reads) (locations writes) (opened self) }
    {
        match self.opened() {
            Some(flight) => flight.is_touched(location, reads, writes),
            None => false,
        }
    }

    // Whether words that are written lie in the area of an open OUT.
    #[tactic(auto, using(crate::proofs::Watching::unwritten))]
    fn is_written(self, writes: Span) -> bool
        ensures { result ≡ writes_output (locations writes) (opened self) }
    {
        match self.opened() {
            Some(flight) => flight.is_written(writes),
            None => false,
        }
    }

    // Whether a transfer and an open one meet, one of them an IN.
    fn meets(self, flight: Flight) -> bool
        ensures { result ≡ meets flight (opened self) }
    {
        match self.opened() {
            Some(other) => flight.meets(other),
            None => false,
        }
    }
}

// A mark for the unit that is met, if one is.
fn mark(kind: MarkKind, location: u16, met: Option<Unit>) -> Option<Mark>
    ensures { result ≡ option_map (λ u. record { kind = kind; unit = u; location = location }) met }
{
    match met {
        Some(unit) => Some(Mark {
            kind,
            unit,
            location,
        }),
        None => None,
    }
}

impl Flights {
    // Whether a unit is another than one, and its open area meets that of a transfer.
    fn is_other_met(&self, number: u8, unit: Unit, flight: Flight) -> bool
        requires { number < units }
        ensures { result ≡ (not (number == unit.number) && meets flight (opened (states_in self.now.states number))) }
    {
        number != unit.number && self.at(number).meets(flight)
    }

    // The first unit of whose open IN an instruction at a location touches the area.
    fn input_touched(&self, location: u16, reads: Span, writes: Span) -> Option<Unit>
        ensures { result ≡ option_map unit_at (first_unit units (λ u. touches_input (location ∷ locations reads) (locations writes) (opened (states_in self.now.states u)))) }
    {
        for number in 0..19u8 {
            if self.at(number).is_touched(location, reads, writes) {
                return Some(Unit { number });
            }
        }
        None
    }

    // The first unit of whose open OUT words of the area are written.
    fn output_written(&self, writes: Span) -> Option<Unit>
        ensures { result ≡ option_map unit_at (first_unit units (λ u. writes_output (locations writes) (opened (states_in self.now.states u)))) }
    {
        for number in 0..19u8 {
            if self.at(number).is_written(writes) {
                return Some(Unit { number });
            }
        }
        None
    }

    // The first unit but one whose open area a transfer meets, one of the two an IN.
    fn area_met(&self, unit: Unit, flight: Flight) -> Option<Unit>
        ensures { result ≡ option_map unit_at (first_unit units (λ v. not (v == unit.number) && meets flight (opened (states_in self.now.states v)))) }
    {
        for number in 0..19u8 {
            if self.is_other_met(number, unit, flight) {
                return Some(Unit { number });
            }
        }
        None
    }

    // Whether a span lies outside the part of memory in which areas are open.
    #[inline(always)]
    fn misses(&self, span: Span) -> bool
        ensures { result ≡ outside self.now.low self.now.high span }
    {
        span.count == 0
            || span.start >= self.high
            || u32::from(span.start) + u32::from(span.count) <= u32::from(self.low)
    }

    // The mark for what an instruction touches, looked for unit by unit.
    #[tactic(auto, unfolding(crate::specs::Watch::touch_mark))]
    #[inline(never)]
    fn find_touched(&self, location: u16, reads: Span, writes: Span) -> Option<Mark>
        ensures { result ≡ touch_mark (λ u. opened (states_in self.now.states u)) (location ∷ locations reads) (locations writes) location }
    {
        match self.input_touched(location, reads, writes) {
            Some(unit) => Some(Mark {
                kind: MarkKind::InputTouched,
                unit,
                location,
            }),
            None => mark(
                MarkKind::OutputWritten,
                location,
                self.output_written(writes),
            ),
        }
    }

    // The mark for what an instruction touches: a word in an open IN's area, or one in an open OUT's that it
    // writes.
    #[inline(always)]
    pub fn touch_mark(&self, location: u16, reads: Span, writes: Span) -> Option<Mark>
        ensures { result ≡ touch_mark (λ u. opened (states_in self.now.states u)) (location ∷ locations reads) (locations writes) location }
    {
        // no area is open, as in most steps
        if self.high == 0 {
            return None;
        }
        let fetch = Span {
            start: location,
            count: 1,
        };
        if self.misses(fetch) && self.misses(reads) && self.misses(writes) {
            return None;
        }
        self.find_touched(location, reads, writes)
    }

    // The mark for a transfer that is issued of a unit and meets another unit's open area.
    #[tactic(auto, unfolding(crate::specs::Watch::meet_mark))]
    pub fn meet_mark(&self, unit: Unit, flight: Flight) -> Option<Mark>
        ensures { result ≡ meet_mark (λ u. opened (states_in self.now.states u)) unit.number flight flight.location }
    {
        mark(
            MarkKind::AreasMeet,
            flight.location,
            self.area_met(unit, flight),
        )
    }
}
