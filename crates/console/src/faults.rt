ghost use Rattle.std.specs.Prelude.{◌≡◌, IfOk};
ghost use Rattle.console.specs.Faults.{fault_of, job_number, job_told};
ghost use Rattle.console.specs.declared.fault.JobFault.TheVariants.{Machine, Refused, TooLong as LongText, NoMemory};
ghost use Rattle.flights.specs.Faults.{told_of};

use crate::fault::JobFault;
use flights::Fault;
use lines::TooLong;
use machine::RunRefusal;
use mixal::Refusal;
use std::alloc::{AllocError, Global};

// Derives would be no plainer than these: contracts read `from_gives`, which none writes.
impl From<Refusal> for JobFault {
    ghost from_gives = { λ r f. f ≡ fault_of r };

    fn from(refusal: Refusal) -> JobFault {
        match refusal {
            Refusal::Rejected(rejection) => JobFault::Rejected(rejection),
            Refusal::NoMemory => JobFault::NoMemory,
        }
    }
}

impl From<Fault> for JobFault {
    ghost from_gives = { λ f r. r ≡ Machine f };

    fn from(fault: Fault) -> JobFault {
        JobFault::Machine(fault)
    }
}

impl From<RunRefusal> for JobFault {
    ghost from_gives = { λ f r. r ≡ Refused f };

    fn from(refusal: RunRefusal) -> JobFault {
        JobFault::Refused(refusal)
    }
}

impl From<TooLong> for JobFault {
    ghost from_gives = { λ f r. r ≡ LongText f };

    fn from(refusal: TooLong) -> JobFault {
        JobFault::TooLong(refusal)
    }
}

impl From<AllocError> for JobFault {
    ghost from_gives = { λ _ r. r ≡ NoMemory };

    fn from(_error: AllocError) -> JobFault {
        JobFault::NoMemory
    }
}

impl JobFault {
    // The number of the fault; want of memory has none.
    pub fn number(self) -> Option<u8>
        ensures { result ≡ job_number self }
    {
        match self {
            JobFault::Rejected(rejection) => Some(rejection.cause.number()),
            JobFault::Machine(fault) => Some(fault.number()),
            JobFault::Outside(_) => Some(10),
            JobFault::Refused(refusal) => Some(refusal.number()),
            JobFault::NotHalted => Some(21),
            JobFault::TooLong(too_long) => Some(too_long.number()),
            JobFault::NoMemory => None,
        }
    }

    // What is told of the fault beside its number, as numbers.
    pub fn told(self, heap: Global) -> Result<Vec<i128>, AllocError>
        ensures { IfOk result (λ v. v.items ≡ job_told self) }
    {
        match self {
            JobFault::Rejected(rejection) => Ok(vec![in heap; rejection.card as i128]?),
            JobFault::Machine(fault) => told_of(heap, fault),
            JobFault::Outside(location) => Ok(vec![in heap; i128::from(location)]?),
            JobFault::TooLong(too_long) => Ok(vec![in heap; too_long.length as i128]?),
            JobFault::Refused(_) | JobFault::NotHalted | JobFault::NoMemory => Ok(Vec::new(heap)),
        }
    }
}

// What is told of a machine's fault.
fn told_of(heap: Global, fault: Fault) -> Result<Vec<i128>, AllocError>
    ensures { IfOk result (λ v. v.items ≡ told_of fault) }
{
    let numbers = fault.numbers(heap)?;
    let mut told = Vec::new(heap);
    for number in &numbers[1..] {
        told.push(i128::from(*number))?;
    }
    Ok(told)
}
