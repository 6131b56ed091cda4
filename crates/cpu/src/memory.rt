ghost use Rattle.std.specs.Prelude.{◌≡◌, ◌<◌, None, Some, IfOk, MatchResult};
ghost use Rattle.cpu.specs.declared.fault.Fault.TheVariants.{Outside};
ghost use Rattle.cpu.specs.Executed.{cells};
ghost use Rattle.cpu.specs.Instructions.{location_of};
ghost use Rattle.cpu.specs.Programs.{stored};

use crate::fault::Fault;
use crate::processor::Processor;
use word::{Sign, Word};

// The location that a number is.
#[inline(always)]
pub(crate) fn location(number: Word) -> Result<u16, Fault>
    ensures found { MatchResult result (λ l. location_of number ≡ Some l) (λ f. (location_of number ≡ None) × (f ≡ Outside number)) }
    ensures within { IfOk result (λ l. l < 4000) }
{
    let last = match number.sign {
        Sign::Plus => 3999,
        Sign::Minus => 0,
    };
    if number.magnitude > last {
        return Err(Fault::Outside(number));
    }
    Ok(number.magnitude as u16)
}

impl Processor {
    // The word at a location.
    #[tactic(auto, using(crate::proofs::Cells::cell_read))]
    #[inline(always)]
    pub(crate) fn word(&self, location: u16) -> Word
        requires { location < 4000 }
        ensures { result ≡ cells self.now.memory location }
    {
        self.memory[usize::from(location)]
    }

    // Puts a word at a location.
    #[tactic(auto, using(crate::proofs::Cells::cell_written))]
    #[inline(always)]
    pub(crate) fn put(&mut self, location: u16, word: Word)
        requires { location < 4000 }
        ensures memory { cells self.new.memory ≡ stored (cells self.old.memory) location word }
        ensures registers { self.new.registers ≡ self.old.registers }
    {
        self.memory[usize::from(location)] = word;
    }
}
