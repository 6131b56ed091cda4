ghost use Rattle.std.specs.Prelude.{◌≡◌, false, None};
ghost use Rattle.cpu.specs.declared.step.Next.TheVariants.{Goes};
ghost use Rattle.cpu.specs.Parts.{none};

use rack::{Transfer, Unit};
use word::Word;

// Locations in a row.
#[derive(Clone, Copy, PartialEq, Eq, Debug)]
pub struct Span {
    pub start: u16,
    pub count: u16,
}

// What comes of an instruction: it goes on, after a jump that sets J or not; it jumps to a location if a unit
// is busy, or if it is not; it waits for a unit where it stands; it issues a transfer, with an area from a
// location on; or it halts.
#[derive(Clone, Copy, PartialEq, Eq, Debug)]
pub enum Next {
    Goes(Option<u16>),
    Tests(Unit, bool, Word),
    Waits(Unit),
    Issues(Unit, Transfer, Word),
    Halts,
}

// An instruction that was executed: its time, the words that it read, its own aside, and wrote, whether it
// took J, and what comes of it.
#[derive(Clone, Copy, PartialEq, Eq, Debug)]
pub struct Step {
    pub time: u32,
    pub reads: Span,
    pub writes: Span,
    pub takes_j: bool,
    pub next: Next,
}

impl Span {
    // No location.
    pub(crate) const NONE: Span = Span { start: 0, count: 0 };

    // One location.
    #[inline(always)]
    pub(crate) fn one(start: u16) -> Span
        ensures { result ≡ record { start = start; count = 1 } }
    {
        Span { start, count: 1 }
    }
}

impl Step {
    // A step that leaves memory alone, and the registers too.
    #[inline(always)]
    pub(crate) fn staying(time: u32, next: Next) -> Step
        ensures { result ≡ record { time = time; reads = none; writes = none; takes_j = false; next = next } }
    {
        Step {
            time,
            reads: Span::NONE,
            writes: Span::NONE,
            takes_j: false,
            next,
        }
    }

    // A step that goes on with the next instruction.
    #[inline(always)]
    pub(crate) fn along(time: u32, reads: Span, writes: Span) -> Step
        ensures { result ≡ record { time = time; reads = reads; writes = writes; takes_j = false; next = Goes None } }
    {
        Step {
            time,
            reads,
            writes,
            takes_j: false,
            next: Next::Goes(None),
        }
    }
}
