ghost use Rattle.std.specs.Prelude.{◌≡◌, ◌∷◌, [], pos, IfOk};
ghost use Rattle.flights.specs.declared.fault.Fault.TheVariants.{Transfer};
ghost use Rattle.word.specs.Word.{value};
ghost use Rattle.jobs.specs.Jobs.{fault_line, told_line};

use flights::{Fault, Rejected};
use rack::UnitFault;
use std::alloc::{AllocError, Global};
use word::{Sign, Word};

// The number of a fault, and what is told of it: of an instruction a location.
pub(crate) fn fault_line(heap: Global, fault: Fault) -> Result<Vec<u8>, AllocError>
    ensures { IfOk result (λ v. v.items ≡ fault_line fault) }
{
    let number = fault.number();
    match fault {
        Fault::Instruction(cpu::Fault::Outside(location)) => {
            location_line(heap, number, value(location))
        }
        Fault::Instruction(
            cpu::Fault::Unlisted(location)
            | cpu::Fault::BeyondIndex(location)
            | cpu::Fault::NegativeShift(location),
        ) => location_line(heap, number, i64::from(location)),
        Fault::Transfer(rejected) => transfer_line(heap, rejected),
    }
}

// Of a transfer, the location that issued it, the unit, and the block where one is told.
fn transfer_line(heap: Global, rejected: Rejected) -> Result<Vec<u8>, AllocError>
    ensures { IfOk result (λ v. v.items ≡ fault_line (Transfer rejected)) }
{
    let number = rejected.fault.number();
    let location = rejected.location;
    match rejected.fault {
        UnitFault::Absent(unit) | UnitFault::NotAllowed(unit) => {
            unit_line(heap, number, location, unit.number)
        }
        UnitFault::NoBlock(unit, block) | UnitFault::Damaged(unit, block) => {
            block_line(heap, number, location, unit.number, block)
        }
    }
}

// A number and a location.
#[tactic(auto, using(crate::proofs::Told::told_two))]
fn location_line(heap: Global, number: u8, location: i64) -> Result<Vec<u8>, AllocError>
    ensures { IfOk result (λ v. v.items ≡ told_line (pos number ∷ (location ∷ []))) }
{
    Ok(format!(in heap; "FAULT {number} {location}\n")?.into_bytes())
}

// A number, a location and a unit.
#[tactic(auto, using(crate::proofs::Told::told_three))]
fn unit_line(heap: Global, number: u8, location: u16, unit: u8) -> Result<Vec<u8>, AllocError>
    ensures { IfOk result (λ v. v.items ≡ told_line (pos number ∷ (pos location ∷ (pos unit ∷ [])))) }
{
    Ok(format!(in heap; "FAULT {number} {location} {unit}\n")?.into_bytes())
}

// A number, a location, a unit and a block.
#[tactic(auto, using(crate::proofs::Told::told_four))]
fn block_line(
    heap: Global,
    number: u8,
    location: u16,
    unit: u8,
    block: u16,
) -> Result<Vec<u8>, AllocError>
    ensures { IfOk result (λ v. v.items ≡ told_line (pos number ∷ (pos location ∷ (pos unit ∷ (pos block ∷ []))))) }
{
    Ok(format!(in heap; "FAULT {number} {location} {unit} {block}\n")?.into_bytes())
}

// The number that a word is.
fn value(word: Word) -> i64
    ensures { result ≡ value word }
{
    let magnitude = i64::from(word.magnitude);
    match word.sign {
        Sign::Plus => magnitude,
        Sign::Minus => -magnitude,
    }
}
