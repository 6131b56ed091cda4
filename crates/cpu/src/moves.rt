ghost use Rattle.std.specs.Prelude.{◌≡◌, ◌+◌, ◌<◌, ◌≤◌};
ghost use Rattle.cpu.specs.declared.operation.Operation.TheVariants.{MoveWords};
ghost use Rattle.cpu.specs.Executed.{cells};
ghost use Rattle.cpu.specs.Parts.{Runs, copied};
ghost use Rattle.cpu.specs.Instructions.{program};

use crate::command::Command;
use crate::fault::Fault;
use crate::memory::location;
use crate::processor::Processor;
use crate::step::{Span, Step};
use word::{Index, Sign, Word};

impl Processor {
    // As many words as are told go from M on to the location in I1 on, one by one, and are added to I1.
    #[inline(always)]
    pub(crate) fn move_words(&mut self, command: Command, count: u8) -> Result<Step, Fault>
        requires { self.old.registers.location < 4000 }
        ensures { Runs (λ o. program o (MoveWords count)) command self.old self.new result }
    {
        let count = u16::from(count);
        if count == 0 {
            self.registers.location += 1;
            return Ok(Step::along(command.time, Span::NONE, Span::NONE));
        }
        let from = location(command.m)?;
        let to = location(Word::from(self.registers.i1))?;
        if from + count > 4000 || to + count > 4000 {
            return Err(Fault::Outside(Word::wrapping(Sign::Plus, 4000)));
        }
        self.copy(from, to, count);
        self.registers.i1 = Index {
            sign: Sign::Plus,
            magnitude: to + count,
        };
        self.registers.location += 1;
        let reads = Span { start: from, count };
        let writes = Span { start: to, count };
        Ok(Step::along(command.time, reads, writes))
    }

    // Copies words one by one, upward.
    #[tactic(auto, using(crate::proofs::Moving::copied_more))]
    #[inline(never)]
    fn copy(&mut self, from: u16, to: u16, count: u16)
        requires source { from + count ≤ 4000 }
        requires target { to + count ≤ 4000 }
        ensures memory { cells self.new.memory ≡ copied count from to (cells self.old.memory) }
        ensures registers { self.new.registers ≡ self.old.registers }
    {
        for i in 0..count {
            let word = self.word(from + i);
            self.put(to + i, word);
        }
    }
}
