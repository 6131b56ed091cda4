ghost use Rattle.std.specs.Prelude.{◌<◌};
ghost use Rattle.cpu.specs.declared.operation.Operation.TheVariants.{Adjust, ShiftBytes};
ghost use Rattle.cpu.specs.Parts.{Runs};
ghost use Rattle.cpu.specs.Instructions.{increasing, loading, program};

use crate::command::Command;
use crate::fault::Fault;
use crate::operation::Adjustment;
use crate::processor::Processor;
use crate::register::Register;
use crate::signs::is_negative;
use crate::step::{Span, Step};
use arith::Shift;
use word::Word;

impl Processor {
    // A register is increased or decreased by M, or gets M or -M.
    #[inline(always)]
    pub(crate) fn adjust(
        &mut self,
        command: Command,
        register: Register,
        adjustment: Adjustment,
    ) -> Result<Step, Fault>
        requires { self.old.registers.location < 4000 }
        ensures { Runs (λ o. program o (Adjust register adjustment)) command self.old self.new result }
    {
        let Command { sign, m, .. } = command;
        match adjustment {
            Adjustment::Increase => self.increase(command, register, m),
            Adjustment::Decrease => self.increase(command, register, m.negated()),
            Adjustment::Enter => self.enter(command, register, arith::enter(sign, m)),
            Adjustment::EnterNegative => self.enter(
                command,
                register,
                arith::enter_negative(sign, m),
            ),
        }
    }

    // A number is added to a register.
    #[inline(always)]
    fn increase(&mut self, command: Command, register: Register, by: Word) -> Result<Step, Fault>
        requires { self.old.registers.location < 4000 }
        ensures { Runs (λ o. increasing o register by) command self.old self.new result }
    {
        let sum = arith::add(self.registers.get(register), by);
        self.fill(register, sum.word)?;
        self.registers.overflow = self.registers.overflow || sum.overflow;
        Ok(Step::along(command.time, Span::NONE, Span::NONE))
    }

    // A register gets a word.
    #[inline(always)]
    fn enter(&mut self, command: Command, register: Register, word: Word) -> Result<Step, Fault>
        requires { self.old.registers.location < 4000 }
        ensures { Runs (λ o. loading o register word o.registers) command self.old self.new result }
    {
        self.fill(register, word)?;
        Ok(Step::along(command.time, Span::NONE, Span::NONE))
    }

    // The bytes of A, or of A and X, are shifted by M.
    #[inline(always)]
    pub(crate) fn shift(&mut self, command: Command, shift: Shift) -> Result<Step, Fault>
        requires { self.old.registers.location < 4000 }
        ensures { Runs (λ o. program o (ShiftBytes shift)) command self.old self.new result }
    {
        if is_negative(command.m) {
            return Err(Fault::NegativeShift(self.registers.location));
        }
        let moved = self.registers.pair().shifted(shift, command.m.magnitude);
        self.registers.set_pair(moved);
        self.registers.location += 1;
        Ok(Step::along(command.time, Span::NONE, Span::NONE))
    }
}
