ghost use Rattle.std.specs.Prelude.{◌≡◌, ◌≤◌, IfOk};
ghost use Rattle.cpu.specs.Instructions.{location_of};
ghost use Rattle.rack.specs.Units.{block_size, kind_of};
ghost use Rattle.flights.specs.Issues.{area_at, area_of, flight_if};
ghost use Rattle.flights.specs.Stands.{Issues, Present};

use crate::fault::{Fault, Rejected};
use crate::flight::Flight;
use crate::issue::Issue;
use cpu::Span;
use rack::{Kind, Rack, Transfer, Unit, UnitFault};
use word::{Sign, Word};

// The area of a number of words that begins at a number.
fn area_at(count: u16, from: Word) -> Result<Span, cpu::Fault>
    requires { count ≤ 100 }
    ensures { result ≡ area_at count from (location_of from) }
{
    let below = from.sign == Sign::Minus && from.magnitude != 0;
    if below || from.magnitude >= 4000 {
        return Err(cpu::Fault::Outside(from));
    }
    let start = from.magnitude as u16;
    if start + count > 4000 {
        return Err(cpu::Fault::Outside(Word::wrapping(Sign::Plus, 4000)));
    }
    Ok(Span { start, count })
}

// How many words a block of a kind has.
fn words_in_block(kind: Kind) -> u16
    ensures size { result ≡ block_size kind }
    ensures few { result ≤ 100 }
{
    kind.block_size() as u16
}

// The area of a transfer.
fn area(kind: Kind, transfer: Transfer, from: Word) -> Result<Span, cpu::Fault>
    ensures { result ≡ area_of kind transfer from }
{
    match transfer {
        Transfer::Take(_) | Transfer::Put(_) => area_at(words_in_block(kind), from),
        Transfer::Shift(_) => Ok(Span { start: 0, count: 0 }),
    }
}

// The kind of a unit, which must be present.
fn present<R: Rack>(rack: &R, unit: Unit, location: u16) -> Result<Kind, Rejected>
    ensures { Present location unit (R.holds rack.now unit.number) (kind_of unit.number) result }
{
    match unit.kind() {
        Some(kind) if rack.ask(unit).is_some() => Ok(kind),
        _ => Err(Rejected {
            location,
            fault: UnitFault::Absent(unit),
        }),
    }
}

impl Issue {
    // The transfer that an instruction at a location issues of a unit, with an area that begins at a number.
    pub fn new<R: Rack>(
        rack: &R,
        unit: Unit,
        transfer: Transfer,
        from: Word,
        location: u16,
    ) -> Result<Issue, Fault>
        ensures { Issues unit (flight_if unit transfer from location (R.holds rack.now unit.number) (kind_of unit.number)) result }
    {
        let kind = present(rack, unit, location)?;
        let area = area(kind, transfer, from)?;
        Ok(Issue {
            unit,
            flight: Flight {
                transfer,
                area,
                location,
            },
        })
    }
}
