ghost use Rattle.std.specs.Prelude.{◌≡◌, ◌<◌, ◌≤◌};
ghost use Rattle.cpu.specs.Decoding.{adjustment_at, decoded, field_if, jump_at, register_at, shift_at, test_at, with_field};
ghost use Rattle.cpu.specs.declared.operation.Operation.TheVariants.{Compare, Load, LoadNegative, Store};

use crate::operation::Operation::{
    Add, Compare, Control, Divide, Halt, Input, JumpBusy, JumpReady, Load, LoadNegative, MoveWords,
    Multiply, Nothing, Output, Store, StoreJ, StoreZero, Subtract,
};
use crate::operation::{Adjustment, Jump, Operation, Test};
use crate::register::Register;
use arith::Shift;
use rack::Unit;
use word::Field;

// The operation of C and F, if C takes that F. The three low bits of most C name a register.
#[tactic(auto, using(crate::proofs::Codes::in_loads, crate::proofs::Codes::in_negative_loads, crate::proofs::Codes::in_stores, crate::proofs::Codes::in_tests, crate::proofs::Codes::in_adjustments, crate::proofs::Codes::in_comparisons, crate::proofs::Codes::takes_none))]
#[inline(always)]
pub fn decode(c: u8, f: u8) -> Option<Operation>
    ensures { result ≡ decoded c f }
{
    let register = Register::at(c % 8);
    match c {
        0..=7 => without_register(c, f),
        8..=15 => load_of(register, f),
        16..=23 => load_negative_of(register, f),
        24..=31 => store_of(register, f),
        32..=39 => of_units(c, f),
        40..=47 => test_of(register, f),
        48..=55 => adjustment_of(register, f),
        56..=63 => compare_of(register, f),
        _ => None,
    }
}

// The operations of C from 0 to 7: sums, products, shifts, and what has no register.
#[tactic(auto, unfolding(crate::specs::Decoding::decoded))]
#[inline(always)]
fn without_register(c: u8, f: u8) -> Option<Operation>
    requires { c < 8 }
    ensures { result ≡ decoded c f }
{
    match (c, field_of(f)) {
        (0, _) => Some(Nothing),
        (1, Some(field)) => Some(Add(field)),
        (2, Some(field)) => Some(Subtract(field)),
        (3, Some(field)) => Some(Multiply(field)),
        (4, Some(field)) => Some(Divide(field)),
        (5, _) if f == 2 => Some(Halt),
        (6, _) => shift_of(f),
        (7, _) => Some(MoveWords(f)),
        _ => None,
    }
}

// The operations of C from 32 to 39: J and +0 stored, the units, and jumps.
#[tactic(auto, unfolding(crate::specs::Decoding::decoded))]
#[inline(always)]
fn of_units(c: u8, f: u8) -> Option<Operation>
    requires from { 32 ≤ c }
    requires to { c < 40 }
    ensures { result ≡ decoded c f }
{
    let unit = Unit { number: f };
    match (c, field_of(f)) {
        (32, Some(field)) => Some(StoreJ(field)),
        (33, Some(field)) => Some(StoreZero(field)),
        (34, _) => Some(JumpBusy(unit)),
        (35, _) => Some(Control(unit)),
        (36, _) => Some(Input(unit)),
        (37, _) => Some(Output(unit)),
        (38, _) => Some(JumpReady(unit)),
        (39, _) => jump_of(f),
        _ => None,
    }
}

// The operations that take a register and a field.
#[inline(always)]
fn load_of(register: Register, f: u8) -> Option<Operation>
    ensures { result ≡ with_field f (Load register) }
{
    field_of(f).map(|field| Load(register, field))
}

#[inline(always)]
fn load_negative_of(register: Register, f: u8) -> Option<Operation>
    ensures { result ≡ with_field f (LoadNegative register) }
{
    field_of(f).map(|field| LoadNegative(register, field))
}

#[inline(always)]
fn store_of(register: Register, f: u8) -> Option<Operation>
    ensures { result ≡ with_field f (Store register) }
{
    field_of(f).map(|field| Store(register, field))
}

#[inline(always)]
fn compare_of(register: Register, f: u8) -> Option<Operation>
    ensures { result ≡ with_field f (Compare register) }
{
    field_of(f).map(|field| Compare(register, field))
}

// The field of a code that names one.
#[tactic(auto, using(crate::proofs::Fields::field_found))]
#[inline(always)]
fn field_of(f: u8) -> Option<Field>
    ensures { result ≡ field_if f }
{
    Field::try_from(f).ok()
}

// The operations that F tells apart.
#[inline(always)]
fn shift_of(f: u8) -> Option<Operation>
    ensures { result ≡ shift_at f }
{
    let shift = match f {
        0 => Shift::Sla,
        1 => Shift::Sra,
        2 => Shift::Slax,
        3 => Shift::Srax,
        4 => Shift::Slc,
        5 => Shift::Src,
        _ => return None,
    };
    Some(Operation::ShiftBytes(shift))
}

#[inline(always)]
fn jump_of(f: u8) -> Option<Operation>
    ensures { result ≡ jump_at f }
{
    let jump = match f {
        0 => Jump::Jmp,
        1 => Jump::Jsj,
        2 => Jump::Jov,
        3 => Jump::Jnov,
        4 => Jump::Jl,
        5 => Jump::Je,
        6 => Jump::Jg,
        7 => Jump::Jge,
        8 => Jump::Jne,
        9 => Jump::Jle,
        _ => return None,
    };
    Some(Operation::JumpIf(jump))
}

#[inline(always)]
fn test_of(register: Register, f: u8) -> Option<Operation>
    ensures { result ≡ test_at register f }
{
    let test = match f {
        0 => Test::Negative,
        1 => Test::Zero,
        2 => Test::Positive,
        3 => Test::NotNegative,
        4 => Test::NotZero,
        5 => Test::NotPositive,
        _ => return None,
    };
    Some(Operation::JumpOn(register, test))
}

#[inline(always)]
fn adjustment_of(register: Register, f: u8) -> Option<Operation>
    ensures { result ≡ adjustment_at register f }
{
    let adjustment = match f {
        0 => Adjustment::Increase,
        1 => Adjustment::Decrease,
        2 => Adjustment::Enter,
        3 => Adjustment::EnterNegative,
        _ => return None,
    };
    Some(Operation::Adjust(register, adjustment))
}

impl Register {
    // The register of the last three bits of C.
    #[inline(always)]
    fn at(number: u8) -> Register
        ensures { result ≡ register_at number }
    {
        match number {
            0 => Register::A,
            1 => Register::I1,
            2 => Register::I2,
            3 => Register::I3,
            4 => Register::I4,
            5 => Register::I5,
            6 => Register::I6,
            _ => Register::X,
        }
    }
}
