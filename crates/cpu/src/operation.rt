use crate::register::Register;
use arith::Shift;
use rack::Unit;
use word::Field;

// What an instruction does, told by its C and F.
#[derive(Clone, Copy)]
pub enum Operation {
    Nothing,
    Add(Field),
    Subtract(Field),
    Multiply(Field),
    Divide(Field),
    Halt,
    ShiftBytes(Shift),
    MoveWords(u8),
    Load(Register, Field),
    LoadNegative(Register, Field),
    Store(Register, Field),
    StoreJ(Field),
    StoreZero(Field),
    JumpBusy(Unit),
    Control(Unit),
    Input(Unit),
    Output(Unit),
    JumpReady(Unit),
    JumpIf(Jump),
    JumpOn(Register, Test),
    Adjust(Register, Adjustment),
    Compare(Register, Field),
}

// The jumps that no register decides.
#[derive(Clone, Copy)]
pub enum Jump {
    Jmp,
    Jsj,
    Jov,
    Jnov,
    Jl,
    Je,
    Jg,
    Jge,
    Jne,
    Jle,
}

// What a jump asks of a register.
#[derive(Clone, Copy)]
pub enum Test {
    Negative,
    Zero,
    Positive,
    NotNegative,
    NotZero,
    NotPositive,
}

// What is done to a register with the number that the address gives.
#[derive(Clone, Copy)]
pub enum Adjustment {
    Increase,
    Decrease,
    Enter,
    EnterNegative,
}
