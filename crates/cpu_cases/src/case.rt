use crate::expected::answer;
use crate::row::Row;
use crate::state::{REGISTERS, State};
use cpu::{Fault, Processor, Registers, Step};
use names::Instruction;
use std::alloc::AllocError;
use std::cmp::Ordering;
use std::fmt::Write;

// What stands before an instruction, what must come of it, and what must stand then.
#[derive(Drop)]
pub(crate) struct Case {
    before: State,
    answer: Result<Step, Fault>,
    after: Processor,
}

impl Case {
    // The case of one of a row's instructions.
    pub(crate) fn read(row: &Row<'_>, i: u8, code: Instruction) -> anyhow::Result<Case> {
        let mut before = State::before(row.before, code)?;
        before.put(row.instructions.word(i, code)?);
        let mut after = Processor {
            registers: before.processor.registers,
            memory: before.processor.memory,
        };
        let answer = answer(&mut after, code, row.after)?;
        Ok(Case {
            before,
            answer,
            after,
        })
    }

    // Executes the instruction, and tells whether all that comes is as it must be.
    pub(crate) fn passes(&mut self) -> (bool, Result<Step, Fault>) {
        let answer = self.before.processor.execute(self.before.j);
        let processor = &self.before.processor;
        let same = answer == self.answer
            && processor.registers == self.after.registers
            && processor.memory == self.after.memory;
        (same, answer)
    }

    // Writes what came otherwise.
    pub(crate) fn tell(
        &self,
        came: Result<Step, Fault>,
        out: &mut String,
    ) -> Result<(), AllocError> {
        let wanted = &self.answer;
        if came != *wanted {
            writeln!(out, "  {came:?}, not {wanted:?}")?;
        }
        self.tell_registers(out)?;
        let words = self.before.processor.memory.iter().zip(&self.after.memory);
        for (location, (word, wanted)) in words.enumerate() {
            if word != wanted {
                writeln!(out, "  {location} {word:?}, not {wanted:?}")?;
            }
        }
        Ok(())
    }

    // Writes the registers that came otherwise.
    fn tell_registers(&self, out: &mut String) -> Result<(), AllocError> {
        let came = self.before.processor.registers;
        let wanted = self.after.registers;
        for (name, register) in REGISTERS {
            let (word, other) = (came.get(register), wanted.get(register));
            if word != other {
                writeln!(out, "  {name} {word:?}, not {other:?}")?;
            }
        }
        let (marks, others) = (marks(came), marks(wanted));
        if marks != others {
            writeln!(
                out,
                "  toggle, indicator and location {marks:?}, not {others:?}"
            )?;
        }
        Ok(())
    }
}

// The toggle, the indicator and the location.
fn marks(registers: Registers) -> (bool, Ordering, u16) {
    (registers.overflow, registers.indicator, registers.location)
}
