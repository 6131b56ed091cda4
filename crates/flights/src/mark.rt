use rack::Unit;

// Why the watch cannot vouch for a deck.
#[derive(Clone, Copy, PartialEq, Eq, Debug)]
pub enum MarkKind {
    // a word in an open IN's area is fetched, read or written
    InputTouched = 1,
    // a word in an open OUT's area is written
    OutputWritten = 2,
    // an IN is issued over another unit's open area, or an OUT over another's open IN area
    AreasMeet = 3,
    // JRED meets an open unit, or JBUS does that does not name its own location
    UnitPolled = 4,
    // STJ runs while J is unsettled
    JStored = 5,
}

// A mark: its kind, the open unit that was met, 0 where J was stored, and the instruction's location.
#[derive(Clone, Copy, PartialEq, Eq, Debug)]
pub struct Mark {
    pub kind: MarkKind,
    pub unit: Unit,
    pub location: u16,
}
