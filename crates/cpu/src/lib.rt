// The instructions of MIX: registers and memory, how a word is decoded, and what each operation does.
// What a step calls is inlined, so that what it answers stays out of memory: a run takes half the time.
#![tactic(auto)]

mod adjusts;
mod command;
mod decoding;
mod fault;
mod jumps;
mod loads;
mod memory;
mod moves;
mod operation;
mod processor;
mod register;
mod registers;
mod signs;
mod step;
mod stores;
mod sums;
mod transfers;

pub use decoding::decode;
pub use fault::Fault;
pub use operation::{Adjustment, Jump, Operation, Test};
pub use processor::Processor;
pub use register::Register;
pub use registers::Registers;
pub use step::{Next, Span, Step};
