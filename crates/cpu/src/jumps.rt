ghost use Rattle.std.specs.Prelude.{◌≡◌, ◌<◌, Ok, cond};
ghost use Rattle.cpu.specs.declared.operation.Operation.TheVariants.{JumpIf, JumpOn};
ghost use Rattle.cpu.specs.Executed.{Went};
ghost use Rattle.cpu.specs.Parts.{Runs};
ghost use Rattle.cpu.specs.Instructions.{along, jump_to, jumping, jumping_past_j, passes, program, toggle_off};

use crate::command::Command;
use crate::fault::Fault;
use crate::memory::location;
use crate::operation::{Jump, Test};
use crate::processor::Processor;
use crate::register::Register;
use crate::registers::Registers;
use crate::signs::{is_negative, is_positive};
use crate::step::{Next, Span, Step};
use word::Word;

impl Registers {
    // Jumps to the location that a number is, or goes on; tells what J is set to by a jump.
    #[inline(always)]
    pub fn go(&mut self, jumps: bool, to: Word) -> Result<Option<u16>, Fault>
        ensures { self.old.location < 4000 → Went (cond jumps (jump_to to self.old) (Ok (along self.old))) self.old self.new result }
    {
        let next = self.location.saturating_add(1);
        if jumps {
            self.location = location(to)?;
            Ok(Some(next))
        } else {
            self.location = next;
            Ok(None)
        }
    }
}

impl Processor {
    // The jumps that no register decides.
    #[inline(always)]
    pub(crate) fn jump_if(&mut self, command: Command, jump: Jump) -> Result<Step, Fault>
        requires { self.old.registers.location < 4000 }
        ensures { Runs (λ o. program o (JumpIf jump)) command self.old self.new result }
    {
        let indicator = self.registers.indicator;
        match jump {
            Jump::Jmp => self.jump(command, true),
            Jump::Jsj => self.jump_past_j(command),
            Jump::Jov => self.jump_by_toggle(command, self.registers.overflow),
            Jump::Jnov => self.jump_by_toggle(command, !self.registers.overflow),
            Jump::Jl => self.jump(command, indicator.is_lt()),
            Jump::Je => self.jump(command, indicator.is_eq()),
            Jump::Jg => self.jump(command, indicator.is_gt()),
            Jump::Jge => self.jump(command, indicator.is_ge()),
            Jump::Jne => self.jump(command, indicator.is_ne()),
            Jump::Jle => self.jump(command, indicator.is_le()),
        }
    }

    // The jumps on a register.
    #[inline(always)]
    pub(crate) fn jump_on(
        &mut self,
        command: Command,
        register: Register,
        test: Test,
    ) -> Result<Step, Fault>
        requires { self.old.registers.location < 4000 }
        ensures { Runs (λ o. program o (JumpOn register test)) command self.old self.new result }
    {
        let taken = test.passes(self.registers.get(register));
        self.jump(command, taken)
    }

    // A jump to M, if it is taken.
    #[inline(always)]
    fn jump(&mut self, command: Command, taken: bool) -> Result<Step, Fault>
        requires { self.old.registers.location < 4000 }
        ensures { Runs (λ o. jumping o taken o.registers) command self.old self.new result }
    {
        let j = self.registers.go(taken, command.m)?;
        Ok(Step {
            next: Next::Goes(j),
            ..Step::along(command.time, Span::NONE, Span::NONE)
        })
    }

    // A jump that leaves the toggle off.
    #[inline(always)]
    fn jump_by_toggle(&mut self, command: Command, taken: bool) -> Result<Step, Fault>
        requires { self.old.registers.location < 4000 }
        ensures { Runs (λ o. jumping o taken (toggle_off o.registers)) command self.old self.new result }
    {
        let j = self.registers.go(taken, command.m)?;
        self.registers.overflow = false;
        Ok(Step {
            next: Next::Goes(j),
            ..Step::along(command.time, Span::NONE, Span::NONE)
        })
    }

    // A jump that leaves J.
    #[inline(always)]
    fn jump_past_j(&mut self, command: Command) -> Result<Step, Fault>
        ensures { Runs jumping_past_j command self.old self.new result }
    {
        self.registers.location = location(command.m)?;
        Ok(Step::along(command.time, Span::NONE, Span::NONE))
    }
}

impl Test {
    // What the test says of a word.
    #[inline(always)]
    fn passes(self, word: Word) -> bool
        ensures { result ≡ passes self word }
    {
        match self {
            Test::Negative => is_negative(word),
            Test::Zero => word.magnitude == 0,
            Test::Positive => is_positive(word),
            Test::NotNegative => !is_negative(word),
            Test::NotZero => word.magnitude != 0,
            Test::NotPositive => !is_positive(word),
        }
    }
}
