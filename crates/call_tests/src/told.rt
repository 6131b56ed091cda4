use crate::two::DECK;
use console::{JobFault, Loaded, assemble};
use job_rack::job_rack;
use lines::TooLong;
use machine::RunRefusal;
use std::alloc::Global;
use std::process::Abort;
use std::test::Fail;

// A fault has this number, and this is told of it.
fn tells(
    rt: &impl Abort,
    heap: Global,
    fault: JobFault,
    number: u8,
    told: &[i128],
) -> Result<(), Fail> {
    assert_eq!(rt; fault.number(), Some(number));
    assert_eq!(rt; fault.told(heap)?.as_slice(), told);
    Ok(())
}

#[test]
fn what_is_told_of_faults(rt: HostRuntime) -> Result<(), Fail> {
    let heap = rt.alloc();
    let Err(no_end) = assemble(heap, b"           HLT\n") else {
        return Err(Fail::new("a deck without END is assembled"));
    };
    tells(&rt, heap, no_end, 8, &[1])?;
    let mut loaded = Loaded::load(assemble(heap, DECK)?, job_rack(heap, b"")?);
    let Err(no_card) = loaded.run(500) else {
        return Err(Fail::new("a card is read that is not there"));
    };
    tells(&rt, heap, no_card, 16, &[0, 16, 0])?;
    tells(&rt, heap, JobFault::Outside(4000), 10, &[4000])?;
    tells(&rt, heap, JobFault::Refused(RunRefusal::Budget), 18, &[])?;
    tells(&rt, heap, JobFault::NotHalted, 21, &[])?;
    let too_long = TooLong { length: 140 };
    tells(&rt, heap, JobFault::TooLong(too_long), 22, &[140])?;
    assert_eq!(rt; JobFault::NoMemory.number(), None);
    Ok(())
}
