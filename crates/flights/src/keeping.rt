ghost use Rattle.std.specs.Prelude.{◌≡◌, ℕ, ◌+◌, ◌<◌, ◌≤◌, true, IfSome};
ghost use Rattle.flights.specs.Flights.{last_due, opened, state_after, states_in, units, with_state};
ghost use Rattle.flights.specs.Kept.{between, due_from, fits_if};
ghost use Rattle.flights.specs.declared.flight.Event.TheVariants.{CarriedOut};
ghost use Rattle.flights.specs.declared.flight.UnitState.TheVariants.{Busy, Idle};

use crate::flight::{Event, Flight, UnitState};
use crate::flights::Flights;
use crate::issue::Issue;
use rack::Unit;

// The earlier of a time and that when a unit's transfer is due.
fn sooner(time: u64, state: UnitState) -> u64
    ensures below { result ≤ time }
    ensures here { due_from result state ≡ true }
{
    match state {
        UnitState::Busy(_, due) => time.min(due),
        UnitState::Idle | UnitState::Done(_) => time,
    }
}

// A part of memory, made wider where the area of a unit's transfer is not in it.
fn wider(low: u16, high: u16, state: UnitState) -> (u16, u16)
    requires { IfSome (opened state) (λ x. x.area.start + x.area.count ≤ 4000) }
    ensures low { result.0 ≤ low }
    ensures high { high ≤ result.1 }
    ensures here { between result.0 result.1 (opened state) ≡ true }
{
    match state.opened() {
        Some(Flight { area, .. }) if area.count > 0 => {
            (low.min(area.start), high.max(area.start + area.count))
        }
        _ => (low, high),
    }
}

impl Flights {
    // All units idle.
    pub fn new() -> Flights
        ensures { states_in result.states ≡ (λ u. Idle) }
    {
        Flights {
            states: [UnitState::Idle; 19],
            soonest: u64::MAX,
            low: 4000,
            high: 0,
        }
    }

    // When the last transfer under way is due, or a time if that is later.
    pub fn last_due(&self, time: u64) -> u64
        ensures { result ≡ last_due units time (states_in self.now.states) }
    {
        let mut last = time;
        for number in 0..19u8 {
            last = self.at(number).later(last);
        }
        last
    }

    // No transfer is due before this.
    fn first_time(&self) -> u64
        ensures { (u : ℕ) → due_from result (states_in self.now.states u) ≡ true }
    {
        let mut first = u64::MAX;
        for number in 0..19u8 {
            first = sooner(first, self.at(number));
        }
        first
    }

    // All open areas lie from the first location to before the second.
    fn open_part(&self) -> (u16, u16)
        ensures { (u : ℕ) → between result.0 result.1 (opened (states_in self.now.states u)) ≡ true }
    {
        let mut low = 4000;
        let mut high = 0;
        for number in 0..19u8 {
            (low, high) = wider(low, high, self.at(number));
        }
        (low, high)
    }

    // Looks again when the first transfer is due, and where areas are open.
    pub(crate) fn refresh(&mut self)
        ensures { self.new.states ≡ self.old.states }
    {
        let soonest = self.first_time();
        let (low, high) = self.open_part();
        self.soonest = soonest;
        self.low = low;
        self.high = high;
    }

    // Makes room for a unit's state, so that nothing is due too early and no area lies outside.
    fn widen(&mut self, state: UnitState)
        requires { IfSome (opened state) (λ x. x.area.start + x.area.count ≤ 4000) }
        ensures same { self.new.states ≡ self.old.states }
        ensures early { due_from self.new.soonest state ≡ true }
        ensures spanned { between self.new.low self.new.high (opened state) ≡ true }
    {
        let soonest = sooner(self.soonest, state);
        let (low, high) = wider(self.low, self.high, state);
        self.soonest = soonest;
        self.low = low;
        self.high = high;
    }

    // Puts a state in a unit's place.
    fn put(&mut self, number: u8, state: UnitState)
        requires known { number < units }
        requires fits { fits_if number (opened state) ≡ true }
        requires early { due_from self.old.soonest state ≡ true }
        requires spanned { between self.old.low self.old.high (opened state) ≡ true }
        ensures { states_in self.new.states ≡ with_state (states_in self.old.states) number state }
    {
        self.states[usize::from(number)] = state;
    }

    // The transfer of a unit was carried out.
    pub(crate) fn carried_out(&mut self, number: u8)
        requires { number < units }
        ensures { states_in self.new.states ≡ with_state (states_in self.old.states) number (state_after CarriedOut (states_in self.old.states number)) }
    {
        self.put(number, self.at(number).after(Event::CarriedOut));
    }

    // The program acknowledges a unit.
    pub fn acknowledge(&mut self, unit: Unit)
        ensures { states_in self.new.states ≡ with_state (states_in self.old.states) unit.number Idle }
    {
        if unit.number < 19 {
            self.put(unit.number, self.at(unit.number).after(Event::Acknowledged));
            self.refresh();
        }
    }

    // A transfer is issued, due at a time.
    pub fn issue(&mut self, issue: Issue, due: u64)
        ensures { states_in self.new.states ≡ with_state (states_in self.old.states) issue.unit.number (Busy issue.flight due) }
    {
        let number = issue.unit.number;
        let state = self.at(number).after(Event::Issued(issue.flight, due));
        self.widen(state);
        self.put(number, state);
    }
}
