use crate::reading::{count, distinct, setting, word};
use anyhow::{Result, bail, ensure};
use cpu::{Processor, Register, Registers};
use names::Instruction;
use std::cmp::Ordering;
use word::{Index, Sign, Word};

// Where an instruction stands unless the table says otherwise.
const HERE: u16 = 10;

// The registers by their names, in the order of the last three bits of C.
pub(crate) const REGISTERS: [(&str, Register); 8] = [
    ("A", Register::A),
    ("I1", Register::I1),
    ("I2", Register::I2),
    ("I3", Register::I3),
    ("I4", Register::I4),
    ("I5", Register::I5),
    ("I6", Register::I6),
    ("X", Register::X),
];

// The registers with J, and memory.
#[derive(Drop)]
pub(crate) struct State {
    pub(crate) processor: Processor,
    pub(crate) j: Word,
}

impl State {
    // What stands before an instruction: what the words say, and else +0, the toggle off and the indicator at E.
    pub(crate) fn before(text: &str, code: Instruction) -> Result<State> {
        distinct(text)?;
        let mut state = State {
            processor: Processor {
                registers: zeros(),
                memory: [zero(); 4000],
            },
            j: zero(),
        };
        for part in text.split_whitespace() {
            match setting(part)? {
                ("at", location) => state.processor.registers.location = count(location)?,
                ("J", value) => state.j = word(value)?,
                (name, value) => set(&mut state.processor, code, name, value)?,
            }
        }
        Ok(state)
    }

    // The instruction is put at the location, if that is in memory.
    pub(crate) fn put(&mut self, instruction: Word) {
        let here = usize::from(self.processor.registers.location);
        if here < 4000 {
            self.processor.memory[here] = instruction;
        }
    }
}

// Sets what a name says: a register, R being that of C, the toggle, the indicator, or a word of memory.
pub(crate) fn set(
    processor: &mut Processor,
    code: Instruction,
    name: &str,
    value: &str,
) -> Result<()> {
    let registers = &mut processor.registers;
    if let Some(register) = register_of(name, code.c) {
        let fits = registers.set(register, word(value)?).is_ok();
        ensure!(fits, "{value} is beyond {name}");
        return Ok(());
    }
    match (name, value) {
        ("OV", "on") => registers.overflow = true,
        ("OV", "off") => registers.overflow = false,
        ("CI", "L") => registers.indicator = Ordering::Less,
        ("CI", "E") => registers.indicator = Ordering::Equal,
        ("CI", "G") => registers.indicator = Ordering::Greater,
        _ => {
            let location = count::<usize>(name)?;
            ensure!(location < 4000, "{location} is outside memory");
            processor.memory[location] = word(value)?;
        }
    }
    Ok(())
}

// The register of a name; R is the one that C names.
fn register_of(name: &str, c: u8) -> Option<Register> {
    if name == "R" {
        return Some(REGISTERS[usize::from(c % 8)].1);
    }
    for (known, register) in REGISTERS {
        if known == name {
            return Some(register);
        }
    }
    None
}

fn zero() -> Word {
    Word::wrapping(Sign::Plus, 0)
}

fn zeros() -> Registers {
    let index = Index {
        sign: Sign::Plus,
        magnitude: 0,
    };
    Registers {
        a: zero(),
        i1: index,
        i2: index,
        i3: index,
        i4: index,
        i5: index,
        i6: index,
        x: zero(),
        overflow: false,
        indicator: Ordering::Equal,
        location: HERE,
    }
}
