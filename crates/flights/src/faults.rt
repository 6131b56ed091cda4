ghost use Rattle.std.specs.Prelude.{◌≡◌, IfOk};
ghost use Rattle.flights.specs.Faults.{fault_number, fault_numbers, rejection_number};
ghost use Rattle.word.specs.Word.{value};
ghost use Rattle.flights.specs.declared.fault.Fault.TheVariants.{Instruction, Transfer};

use crate::due::Broken;
use crate::fault::{Fault, Rejected};
use rack::UnitFault;
use std::alloc::{AllocError, Global};
use word::{Sign, Word};

// A derive would be no plainer than these: contracts read `from_gives`, which none writes.
impl From<cpu::Fault> for Fault {
    ghost from_gives = { λ f r. r ≡ Instruction f };

    fn from(fault: cpu::Fault) -> Fault {
        Fault::Instruction(fault)
    }
}

impl From<Rejected> for Fault {
    ghost from_gives = { λ f r. r ≡ Transfer f };

    fn from(rejected: Rejected) -> Fault {
        Fault::Transfer(rejected)
    }
}

impl From<Broken> for Fault {
    ghost from_gives = { λ b r. r ≡ Transfer b.rejected };

    fn from(broken: Broken) -> Fault {
        Fault::Transfer(broken.rejected)
    }
}

// The number of an instruction's rejection.
fn rejection_number(fault: cpu::Fault) -> u8
    ensures { result ≡ rejection_number fault }
{
    match fault {
        cpu::Fault::Outside(_) => 10,
        cpu::Fault::Unlisted(_) => 11,
        cpu::Fault::BeyondIndex(_) => 12,
        cpu::Fault::NegativeShift(_) => 13,
    }
}

// A word as a number.
fn number_of(word: Word) -> i32
    ensures { result ≡ value word }
{
    let magnitude = word.magnitude as i32;
    match word.sign {
        Sign::Plus => magnitude,
        Sign::Minus => -magnitude,
    }
}

impl Fault {
    // The number of the fault.
    pub fn number(self) -> u8
        ensures { result ≡ fault_number self }
    {
        match self {
            Fault::Instruction(fault) => rejection_number(fault),
            Fault::Transfer(rejected) => rejected.fault.number(),
        }
    }

    // The fault in numbers: its own, and those that are told of it.
    pub fn numbers(self, heap: Global) -> Result<Vec<i32>, AllocError>
        ensures { IfOk result (λ v. v.items ≡ fault_numbers self) }
    {
        let number = i32::from(self.number());
        match self {
            Fault::Instruction(cpu::Fault::Outside(m)) => Ok(vec![in heap; number, number_of(m)]?),
            Fault::Instruction(
                cpu::Fault::Unlisted(location)
                | cpu::Fault::BeyondIndex(location)
                | cpu::Fault::NegativeShift(location),
            ) => Ok(vec![in heap; number, i32::from(location)]?),
            Fault::Transfer(rejected) => {
                let location = i32::from(rejected.location);
                match rejected.fault {
                    UnitFault::Absent(unit) | UnitFault::NotAllowed(unit) => {
                        Ok(vec![in heap; number, location, i32::from(unit.number)]?)
                    }
                    UnitFault::NoBlock(unit, block) | UnitFault::Damaged(unit, block) => {
                        Ok(vec![in heap;
                            number,
                            location,
                            i32::from(unit.number),
                            i32::from(block),
                        ]?)
                    }
                }
            }
        }
    }
}
