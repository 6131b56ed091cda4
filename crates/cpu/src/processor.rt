ghost use Rattle.std.specs.Prelude.{◌<◌, [], ◌∷◌, OnOk};
ghost use Rattle.cpu.specs.Executed.{Executes, cells};
ghost use Rattle.cpu.specs.Laws.{InstructionLaws};
ghost use Rattle.cpu.specs.Parts.{order_of};
ghost use Rattle.cpu.specs.Instructions.{instruction, program};

use crate::command::Command;
use crate::decoding::decode;
use crate::fault::Fault;
use crate::operation::Operation;
use crate::registers::Registers;
use crate::step::Step;
use names::Instruction;
use word::{Sign, Word};

// The registers and the memory.
#[derive(Drop)]
pub struct Processor {
    pub registers: Registers,
    pub memory: [Word; 4000],
}

impl Processor {
    // Executes the instruction at the location, j being the word of J.
    #[tactic(auto, using(crate::proofs::Laws::instruction_laws, crate::proofs::Fetching::fetched), unfolding(crate::specs::Instructions::instruction))]
    #[inline(always)]
    pub fn execute(&mut self, j: Word) -> Result<Step, Fault>
        ensures executed { Executes (instruction self.old.registers) (self.old.registers.location ∷ []) j self.old.registers (cells self.old.memory) self.new.registers (cells self.new.memory) result }
        ensures within { OnOk result (self.old.registers.location < 4000) }
        ensures rule { InstructionLaws }
    {
        let here = self.registers.location;
        if here >= 4000 {
            return Err(Fault::Outside(Word::wrapping(Sign::Plus, u64::from(here))));
        }
        let word = self.word(here);
        let c = (word.magnitude % 64) as u8;
        let f = (word.magnitude / 64 % 64) as u8;
        let Some(m) = self.registers.number(word) else {
            return Err(Fault::Unlisted(here));
        };
        let command = Command {
            time: Instruction { c, f }.time(),
            sign: word.sign,
            m,
        };
        match decode(c, f) {
            Some(operation) => self.perform(operation, command, j),
            None => Err(Fault::Unlisted(here)),
        }
    }

    // Executes an operation.
    #[inline(always)]
    fn perform(&mut self, operation: Operation, command: Command, j: Word) -> Result<Step, Fault>
        requires { self.old.registers.location < 4000 }
        ensures { Executes (program (order_of self.old.registers command) operation) [] j self.old.registers (cells self.old.memory) self.new.registers (cells self.new.memory) result }
    {
        match operation {
            Operation::Nothing => self.nothing(command),
            Operation::Add(field) => self.add(command, field),
            Operation::Subtract(field) => self.subtract(command, field),
            Operation::Multiply(field) => self.multiply(command, field),
            Operation::Divide(field) => self.divide(command, field),
            Operation::Halt => self.halt(command),
            Operation::ShiftBytes(shift) => self.shift(command, shift),
            Operation::MoveWords(count) => self.move_words(command, count),
            Operation::Load(register, field) => self.load(command, register, field),
            Operation::LoadNegative(register, field) => self.load_negative(
                command, register, field,
            ),
            Operation::Store(register, field) => self.store(command, register, field),
            Operation::StoreJ(field) => self.store_j(command, field, j),
            Operation::StoreZero(field) => self.store_zero(command, field),
            Operation::JumpBusy(unit) => self.jump_busy(command, unit),
            Operation::Control(unit) => self.control(command, unit),
            Operation::Input(unit) => self.input(command, unit),
            Operation::Output(unit) => self.output(command, unit),
            Operation::JumpReady(unit) => self.jump_ready(command, unit),
            Operation::JumpIf(jump) => self.jump_if(command, jump),
            Operation::JumpOn(register, test) => self.jump_on(command, register, test),
            Operation::Adjust(register, adjustment) => self.adjust(command, register, adjustment),
            Operation::Compare(register, field) => self.compare(command, register, field),
        }
    }
}
