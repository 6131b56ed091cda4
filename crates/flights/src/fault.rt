use rack::UnitFault;

// A transfer that a unit rejects, with the location of the instruction that issued it.
#[derive(Clone, Copy, PartialEq, Eq, Debug)]
pub struct Rejected {
    pub location: u16,
    pub fault: UnitFault,
}

// Why a machine stopped: an instruction was rejected, or a transfer.
#[derive(Clone, Copy, PartialEq, Eq, Debug)]
pub enum Fault {
    Instruction(cpu::Fault),
    Transfer(Rejected),
}
