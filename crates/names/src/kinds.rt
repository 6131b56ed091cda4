// The C and the F of an instruction; of a name's, the F is what a card that leaves it out means.
#[derive(Clone, Copy, PartialEq, Eq, Debug)]
pub struct Instruction {
    pub c: u8,
    pub f: u8,
}

// What an operation's name stands for.
#[derive(Clone, Copy, PartialEq, Eq, Debug)]
pub enum Operation {
    Machine(Instruction),
    Equ,
    Orig,
    Con,
    Alf,
    End,
}
