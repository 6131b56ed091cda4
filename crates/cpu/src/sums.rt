ghost use Rattle.std.specs.Prelude.{◌≡◌, ◌<◌};
ghost use Rattle.cpu.specs.declared.operation.Operation.TheVariants.{Add, Divide, Multiply, Subtract};
ghost use Rattle.cpu.specs.Parts.{Runs};
ghost use Rattle.cpu.specs.Instructions.{program};
ghost use Rattle.cpu.specs.Registers.{pair_in, toggled, with_pair};

use crate::command::Command;
use crate::fault::Fault;
use crate::memory::location;
use crate::processor::Processor;
use crate::registers::Registers;
use crate::step::{Span, Step};
use arith::{Pair, Sum};
use word::Field;

impl Registers {
    // A gets a sum, and the toggle goes on where it was too large.
    #[inline(always)]
    fn take_sum(&mut self, sum: Sum)
        ensures { self.new ≡ toggled sum.overflow (record self.old { a = sum.word }) }
    {
        self.a = sum.word;
        self.overflow = self.overflow || sum.overflow;
    }

    // A and X together.
    #[inline(always)]
    pub(crate) fn pair(&self) -> Pair
        ensures { result ≡ pair_in self.now }
    {
        Pair {
            a: self.a,
            x: self.x,
        }
    }

    #[inline(always)]
    pub(crate) fn set_pair(&mut self, pair: Pair)
        ensures { self.new ≡ with_pair self.old pair }
    {
        self.a = pair.a;
        self.x = pair.x;
    }
}

impl Processor {
    // The word at M is added to A.
    #[inline(always)]
    pub(crate) fn add(&mut self, command: Command, field: Field) -> Result<Step, Fault>
        requires { self.old.registers.location < 4000 }
        ensures { Runs (λ o. program o (Add field)) command self.old self.new result }
    {
        let at = location(command.m)?;
        let sum = arith::add(self.registers.a, self.word(at).field(field));
        self.registers.take_sum(sum);
        self.registers.location += 1;
        Ok(Step::along(command.time, Span::one(at), Span::NONE))
    }

    // The word at M is subtracted from A.
    #[inline(always)]
    pub(crate) fn subtract(&mut self, command: Command, field: Field) -> Result<Step, Fault>
        requires { self.old.registers.location < 4000 }
        ensures { Runs (λ o. program o (Subtract field)) command self.old self.new result }
    {
        let at = location(command.m)?;
        let sum = arith::subtract(self.registers.a, self.word(at).field(field));
        self.registers.take_sum(sum);
        self.registers.location += 1;
        Ok(Step::along(command.time, Span::one(at), Span::NONE))
    }

    // A times the word at M goes to A and X.
    #[inline(always)]
    pub(crate) fn multiply(&mut self, command: Command, field: Field) -> Result<Step, Fault>
        requires { self.old.registers.location < 4000 }
        ensures { Runs (λ o. program o (Multiply field)) command self.old self.new result }
    {
        let at = location(command.m)?;
        let product = arith::multiply(self.registers.a, self.word(at).field(field));
        self.registers.set_pair(product);
        self.registers.location += 1;
        Ok(Step::along(command.time, Span::one(at), Span::NONE))
    }

    // AX by the word at M: the quotient goes to A and the remainder to X, or the toggle goes on.
    #[inline(always)]
    pub(crate) fn divide(&mut self, command: Command, field: Field) -> Result<Step, Fault>
        requires { self.old.registers.location < 4000 }
        ensures { Runs (λ o. program o (Divide field)) command self.old self.new result }
    {
        let at = location(command.m)?;
        let quotient = self.registers.pair().divide(self.word(at).field(field));
        match quotient {
            Some(pair) => self.registers.set_pair(pair),
            None => self.registers.overflow = true,
        }
        self.registers.location += 1;
        Ok(Step::along(command.time, Span::one(at), Span::NONE))
    }
}
