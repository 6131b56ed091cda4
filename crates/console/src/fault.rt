use flights::Fault;
use lines::TooLong;
use machine::RunRefusal;
use mixal::Rejection;

// Why a call of the console gives no answer: the deck is rejected; the machine came to a fault; a location that
// is asked for is outside the memory; a run is refused; a machine that has not halted is not closed; a text is
// longer than the buffer; memory is wanting.
#[derive(Clone, Copy, PartialEq, Eq, Debug)]
pub enum JobFault {
    Rejected(Rejection),
    Machine(Fault),
    Outside(u16),
    Refused(RunRefusal),
    NotHalted,
    TooLong(TooLong),
    NoMemory,
}
