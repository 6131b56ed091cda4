ghost use Rattle.std.specs.Prelude.{◌≡◌, ◌<◌, Ok, true, false};
ghost use Rattle.cpu.specs.declared.operation.Operation.TheVariants.{Control, Halt, Input, JumpBusy, JumpReady, Nothing, Output};
ghost use Rattle.cpu.specs.Parts.{Runs};
ghost use Rattle.cpu.specs.Instructions.{block_number, program};

use crate::command::Command;
use crate::fault::Fault;
use crate::memory::location;
use crate::processor::Processor;
use crate::registers::Registers;
use crate::step::{Next, Span, Step};
use rack::{Transfer, Unit};

impl Registers {
    // The number of a disk's block.
    #[inline(always)]
    fn block(&self) -> u16
        ensures { result ≡ block_number self.now }
    {
        (self.x.magnitude % 4096) as u16
    }
}

impl Processor {
    // Nothing is done.
    #[inline(always)]
    pub(crate) fn nothing(&mut self, command: Command) -> Result<Step, Fault>
        requires { self.old.registers.location < 4000 }
        ensures { Runs (λ o. program o Nothing) command self.old self.new result }
    {
        self.registers.location += 1;
        Ok(Step::along(command.time, Span::NONE, Span::NONE))
    }

    // A jump to M if the unit is busy; one to itself waits.
    #[inline(always)]
    pub(crate) fn jump_busy(&self, command: Command, unit: Unit) -> Result<Step, Fault>
        ensures { Runs (λ o. program o (JumpBusy unit)) command self.now self.now result }
    {
        let here = self.registers.location;
        if location(command.m).is_ok_and(|to| to == here) {
            Ok(Step::staying(command.time, Next::Waits(unit)))
        } else {
            Ok(Step::staying(command.time, Next::Tests(unit, true, command.m)))
        }
    }

    // A jump to M if the unit is not busy.
    #[inline(always)]
    pub(crate) fn jump_ready(&self, command: Command, unit: Unit) -> Result<Step, Fault>
        ensures { Runs (λ o. program o (JumpReady unit)) command self.now self.now result }
    {
        Ok(Step::staying(command.time, Next::Tests(unit, false, command.m)))
    }

    // The unit is moved by M.
    #[inline(always)]
    pub(crate) fn control(&self, command: Command, unit: Unit) -> Result<Step, Fault>
        ensures { Runs (λ o. program o (Control unit)) command self.now self.now result }
    {
        Ok(Step::staying(
            command.time,
            Next::Issues(unit, Transfer::Shift(command.m), command.m),
        ))
    }

    // A block is read to M onward.
    #[inline(always)]
    pub(crate) fn input(&self, command: Command, unit: Unit) -> Result<Step, Fault>
        ensures { Runs (λ o. program o (Input unit)) command self.now self.now result }
    {
        let take = Transfer::Take(self.registers.block());
        Ok(Step::staying(command.time, Next::Issues(unit, take, command.m)))
    }

    // A block is written from M onward.
    #[inline(always)]
    pub(crate) fn output(&self, command: Command, unit: Unit) -> Result<Step, Fault>
        ensures { Runs (λ o. program o (Output unit)) command self.now self.now result }
    {
        let put = Transfer::Put(self.registers.block());
        Ok(Step::staying(command.time, Next::Issues(unit, put, command.m)))
    }

    #[inline(always)]
    pub(crate) fn halt(&self, command: Command) -> Result<Step, Fault>
        ensures { Runs (λ o. program o Halt) command self.now self.now result }
    {
        Ok(Step::staying(command.time, Next::Halts))
    }
}
