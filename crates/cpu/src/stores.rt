ghost use Rattle.std.specs.Prelude.{◌<◌, []};
ghost use Rattle.cpu.specs.declared.operation.Operation.TheVariants.{Store, StoreJ, StoreZero};
ghost use Rattle.cpu.specs.Executed.{Executes, cells};
ghost use Rattle.cpu.specs.Parts.{Runs, order_of};
ghost use Rattle.cpu.specs.Instructions.{program, storing};

use crate::command::Command;
use crate::fault::Fault;
use crate::memory::location;
use crate::processor::Processor;
use crate::register::Register;
use crate::step::{Span, Step};
use word::{Field, Sign, Word};

impl Processor {
    // A register goes to a field of the word at M.
    #[inline(always)]
    pub(crate) fn store(
        &mut self,
        command: Command,
        register: Register,
        field: Field,
    ) -> Result<Step, Fault>
        requires { self.old.registers.location < 4000 }
        ensures { Runs (λ o. program o (Store register field)) command self.old self.new result }
    {
        let word = self.registers.get(register);
        self.store_word(command, field, word)
    }

    // +0 goes to a field of the word at M.
    #[inline(always)]
    pub(crate) fn store_zero(&mut self, command: Command, field: Field) -> Result<Step, Fault>
        requires { self.old.registers.location < 4000 }
        ensures { Runs (λ o. program o (StoreZero field)) command self.old self.new result }
    {
        self.store_word(command, field, Word::wrapping(Sign::Plus, 0))
    }

    // J goes to a field of the word at M.
    #[inline(always)]
    pub(crate) fn store_j(&mut self, command: Command, field: Field, j: Word) -> Result<Step, Fault>
        requires { self.old.registers.location < 4000 }
        ensures { Executes (program (order_of self.old.registers command) (StoreJ field)) [] j self.old.registers (cells self.old.memory) self.new.registers (cells self.new.memory) result }
    {
        let at = location(command.m)?;
        self.put(at, self.word(at).with_field(field, j));
        self.registers.location += 1;
        Ok(Step {
            takes_j: true,
            ..Step::along(command.time, Span::one(at), Span::one(at))
        })
    }

    // A word goes to a field of the word at M.
    #[inline(always)]
    fn store_word(&mut self, command: Command, field: Field, word: Word) -> Result<Step, Fault>
        requires { self.old.registers.location < 4000 }
        ensures { Runs (λ o. storing o field word) command self.old self.new result }
    {
        let at = location(command.m)?;
        self.put(at, self.word(at).with_field(field, word));
        self.registers.location += 1;
        Ok(Step::along(command.time, Span::one(at), Span::one(at)))
    }
}
