ghost use Rattle.std.specs.Prelude.{◌≡◌, nat_le, IfOk, OnOk, OnErr};
ghost use Rattle.std.specs.Result.{is_ok};
ghost use Rattle.cpu.specs.Decoding.{number_m};
ghost use Rattle.cpu.specs.Registers.{changed, fits, held, index_of};

use crate::register::Register;
use std::cmp::Ordering;
use word::{BeyondIndex, Index, Word};

// The registers but J, with the overflow toggle, the comparison indicator, and the location of the next
// instruction.
#[derive(Clone, Copy, PartialEq, Eq, Debug)]
pub struct Registers {
    pub a: Word,
    pub i1: Index,
    pub i2: Index,
    pub i3: Index,
    pub i4: Index,
    pub i5: Index,
    pub i6: Index,
    pub x: Word,
    pub overflow: bool,
    pub indicator: Ordering,
    pub location: u16,
}

impl Registers {
    // What a register holds.
    #[inline(always)]
    pub fn get(&self, register: Register) -> Word
        ensures { result ≡ held self.now register }
    {
        match register {
            Register::A => self.a,
            Register::I1 => Word::from(self.i1),
            Register::I2 => Word::from(self.i2),
            Register::I3 => Word::from(self.i3),
            Register::I4 => Word::from(self.i4),
            Register::I5 => Word::from(self.i5),
            Register::I6 => Word::from(self.i6),
            Register::X => self.x,
        }
    }

    // Puts a word in a register; an error where it is an index register and the word is beyond 4,095.
    #[inline(always)]
    pub fn set(&mut self, register: Register, word: Word) -> Result<(), BeyondIndex>
        ensures room { is_ok result ≡ fits register word }
        ensures ok { OnOk result (self.new ≡ changed self.old register word) }
        ensures err { OnErr result (self.new ≡ self.old) }
    {
        match register {
            Register::A => self.a = word,
            Register::I1 => self.i1 = index(word)?,
            Register::I2 => self.i2 = index(word)?,
            Register::I3 => self.i3 = index(word)?,
            Register::I4 => self.i4 = index(word)?,
            Register::I5 => self.i5 = index(word)?,
            Register::I6 => self.i6 = index(word)?,
            Register::X => self.x = word,
        }
        Ok(())
    }

    // M of an instruction: the address, plus what the index register holds that it names, if there is one.
    #[inline(always)]
    pub fn number(&self, instruction: Word) -> Option<Word>
        ensures { result ≡ number_m self.now instruction }
    {
        let high = u64::from(instruction.magnitude / 0x4_0000);
        let address = Word::wrapping(instruction.sign, high);
        let index = match instruction.magnitude / 0x1000 % 64 {
            0 => return Some(address),
            1 => self.i1,
            2 => self.i2,
            3 => self.i3,
            4 => self.i4,
            5 => self.i5,
            6 => self.i6,
            _ => return None,
        };
        Some(arith::add(address, Word::from(index)).word)
    }
}

// A word as an index register holds it; an error where it is beyond 4,095.
#[tactic(auto, using(crate::proofs::Indices::index_found))]
#[inline(always)]
fn index(word: Word) -> Result<Index, BeyondIndex>
    ensures room { is_ok result ≡ nat_le word.magnitude 4095 }
    ensures index { IfOk result (λ i. i ≡ index_of word) }
{
    Index::try_from(word)
}
