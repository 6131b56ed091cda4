use flights::Fault;

// How a machine stands.
#[derive(Clone, Copy, PartialEq, Eq, Debug)]
pub enum Phase {
    Running,
    Halted,
    Faulted(Fault),
}

// Why a run is refused before any step: the budget is 0 or over 1,000,000; the machine has halted or is at a
// fault; the clock is at 10^15 or past it.
#[derive(Clone, Copy, PartialEq, Eq, Debug)]
pub enum RunRefusal {
    Budget = 18,
    NotRunning = 19,
    ClockPast = 20,
}
