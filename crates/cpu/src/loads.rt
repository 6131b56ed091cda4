ghost use Rattle.std.specs.Prelude.{◌<◌};
ghost use Rattle.cpu.specs.declared.operation.Operation.TheVariants.{Compare, Load, LoadNegative};
ghost use Rattle.cpu.specs.Parts.{Fills, Runs};
ghost use Rattle.cpu.specs.Instructions.{program};

use crate::command::Command;
use crate::fault::Fault;
use crate::memory::location;
use crate::processor::Processor;
use crate::register::Register;
use crate::step::{Span, Step};
use word::{Field, Word};

impl Processor {
    // The word at M goes to a register.
    #[inline(always)]
    pub(crate) fn load(
        &mut self,
        command: Command,
        register: Register,
        field: Field,
    ) -> Result<Step, Fault>
        requires { self.old.registers.location < 4000 }
        ensures { Runs (λ o. program o (Load register field)) command self.old self.new result }
    {
        let at = location(command.m)?;
        self.fill(register, self.word(at).field(field))?;
        Ok(Step::along(command.time, Span::one(at), Span::NONE))
    }

    // The word at M goes to a register, with its sign turned.
    #[inline(always)]
    pub(crate) fn load_negative(
        &mut self,
        command: Command,
        register: Register,
        field: Field,
    ) -> Result<Step, Fault>
        requires { self.old.registers.location < 4000 }
        ensures { Runs (λ o. program o (LoadNegative register field)) command self.old self.new result }
    {
        let at = location(command.m)?;
        self.fill(register, self.word(at).field(field).negated())?;
        Ok(Step::along(command.time, Span::one(at), Span::NONE))
    }

    // The indicator tells how a field of a register and that of the word at M compare.
    #[inline(always)]
    pub(crate) fn compare(
        &mut self,
        command: Command,
        register: Register,
        field: Field,
    ) -> Result<Step, Fault>
        requires { self.old.registers.location < 4000 }
        ensures { Runs (λ o. program o (Compare register field)) command self.old self.new result }
    {
        let at = location(command.m)?;
        let held = self.registers.get(register).field(field);
        self.registers.indicator = arith::compare(held, self.word(at).field(field));
        self.registers.location += 1;
        Ok(Step::along(command.time, Span::one(at), Span::NONE))
    }

    // A word goes to a register, and the next instruction follows; rejected where an index register has no room.
    #[inline(always)]
    pub(crate) fn fill(&mut self, register: Register, word: Word) -> Result<(), Fault>
        requires { self.old.registers.location < 4000 }
        ensures { Fills register word self.old self.new result }
    {
        let here = self.registers.location;
        if self.registers.set(register, word).is_err() {
            return Err(Fault::BeyondIndex(here));
        }
        self.registers.location += 1;
        Ok(())
    }
}
