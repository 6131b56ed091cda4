ghost use Rattle.std.specs.Prelude.{◌≡◌, None};
ghost use Rattle.cpu.specs.Executed.{cells};
ghost use Rattle.cpu.specs.Registers.{index_of};
ghost use Rattle.machine.specs.Laws.{RunLaws};
ghost use Rattle.machine.specs.Model.{fresh, fresh_registers, model, stands};
ghost use Rattle.machine.specs.Runs.{Ran, Steps, answer, granting, is_running, refusal_number, refused, status_of};
ghost use Rattle.machine.specs.Small.{Sane};
ghost use Rattle.word.specs.Word.{word_of};
ghost use Rattle.word.specs.declared.sign.Sign.TheVariants.{Plus};

use crate::counts::Counts;
use crate::j::J;
use crate::machine::Machine;
use crate::parts::Parts;
use crate::phase::{Phase, RunRefusal};
use crate::status::Status;
use cpu::{Processor, Registers};
use flights::Flights;
use rack::Rack;
use std::cmp::Ordering;
use word::{Index, Sign, Word};

impl RunRefusal {
    // The number of the refusal.
    pub fn number(self) -> u8
        ensures { result ≡ refusal_number self }
    {
        self as u8
    }
}

impl Phase {
    // Whether a machine runs: until it halts or is at a fault.
    fn is_running(self) -> bool
        ensures { result ≡ is_running self }
    {
        matches!(self, Phase::Running)
    }
}

// An index register at +0.
fn no_index() -> Index
    ensures { result ≡ index_of (word_of Plus 0) }
{
    Index {
        sign: Sign::Plus,
        magnitude: 0,
    }
}

// The registers of a machine that was just loaded.
fn fresh_registers(start: u16) -> Registers
    ensures { result ≡ fresh_registers start }
{
    let zero = Word::wrapping(Sign::Plus, 0);
    let none = no_index();
    Registers {
        a: zero,
        i1: none,
        i2: none,
        i3: none,
        i4: none,
        i5: none,
        i6: none,
        x: zero,
        overflow: false,
        indicator: Ordering::Equal,
        location: start,
    }
}

impl<R: Rack> Parts<R> {
    // Why a run of a budget is refused, if it is.
    fn refusal(&self, budget: u32) -> Option<RunRefusal>
        ensures { result ≡ refused budget (stands R.holds self.now) }
    {
        if budget == 0 || budget > 1_000_000 {
            return Some(RunRefusal::Budget);
        }
        if !self.phase.is_running() {
            return Some(RunRefusal::NotRunning);
        }
        if self.counts.clock >= 1_000_000_000_000_000 {
            return Some(RunRefusal::ClockPast);
        }
        None
    }

    // A budget of steps is granted, and they are made until the machine stops.
    #[inline(never)]
    fn run(&mut self, budget: u32)
        requires accepted { refused budget (stands R.holds self.old) ≡ None }
        requires sane { Sane (stands R.holds self.old) }
        ensures { Steps R.holds R.tells budget (granting budget (stands R.holds self.old)) (stands R.holds self.new) }
    {
        self.counts.granted += u64::from(budget);
        for _step in 0..budget {
            if !self.phase.is_running() {
                return;
            }
            self.step();
        }
    }
}

impl<R: Rack> Machine<R> {
    // A machine with a memory and a rack, which begins at a location.
    pub fn start(rack: R, memory: [Word; 4000], start: u16) -> Machine<R>
        ensures { model R.holds result ≡ fresh (cells memory) start (R.holds rack) }
    {
        Machine {
            parts: Parts {
                rack,
                processor: Processor {
                    registers: fresh_registers(start),
                    memory,
                },
                flights: Flights::new(),
                j: J {
                    location: 0,
                    settled: true,
                },
                counts: Counts::zero(),
                mark: None,
                phase: Phase::Running,
            },
        }
    }

    // The parts of the machine, to look at.
    pub fn parts(&self) -> &Parts<R>
        ensures { result.now ≡ self.now.parts }
    {
        &self.parts
    }

    // How the machine stands, its mark and its counts.
    pub fn status(&self) -> Status
        ensures { result ≡ status_of (model R.holds self.now) }
    {
        Status {
            phase: self.parts.phase,
            mark: self.parts.mark,
            counts: self.parts.counts,
        }
    }

    // Makes a budget of steps, fewer only at halt or fault, and tells how the machine then stands.
    #[tactic(auto, using(crate::proofs::Joining::run_laws))]
    pub fn run(&mut self, budget: u32) -> Result<Status, RunRefusal>
        ensures ran { Ran R.holds R.tells budget (model R.holds self.old) (model R.holds self.new) }
        ensures told { result ≡ answer (refused budget (model R.holds self.old)) (model R.holds self.new) }
        ensures rule { RunLaws R.holds R.tells }
    {
        if let Some(refusal) = self.parts.refusal(budget) {
            return Err(refusal);
        }
        self.parts.run(budget);
        Ok(self.status())
    }
}
