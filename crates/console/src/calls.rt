ghost use Rattle.std.specs.Prelude.{◌≡◌, ◌<◌};
ghost use Rattle.cpu.specs.Executed.{cells};
ghost use Rattle.console.specs.Calls.{loaded_model, loaded_with, closed_model, run_answer, peeked, memory_of, unless_faulted, word_in, Closes};
ghost use Rattle.machine.specs.Runs.{Ran, refused, status_of};
ghost use Rattle.mixal.specs.Model.{assembled};

use crate::closed::Closed;
use crate::fault::JobFault;
use crate::loaded::Loaded;
use flights::Fault;
use machine::{Machine, Phase, Status};
use mixal::Deck;
use rack::Rack;
use word::{Sign, Word};

impl<R: Rack> Loaded<R> {
    // A deck is loaded into a machine with a rack; it is used up.
    pub fn load(deck: Deck, rack: R) -> Loaded<R>
        ensures { loaded_model R.holds result ≡ loaded_with (assembled deck) (R.holds rack) }
    {
        Loaded::start(&deck, rack)
    }

    // A deck that is kept is loaded too.
    pub(crate) fn start(deck: &Deck, rack: R) -> Loaded<R>
        ensures { loaded_model R.holds result ≡ loaded_with (assembled deck.now) (R.holds rack) }
    {
        Loaded {
            machine: Machine::start(rack, memory(deck), deck.start()),
        }
    }

    // A run of a budget of steps; a fault is told once it comes.
    pub fn run(&mut self, budget: u32) -> Result<Status, JobFault>
        ensures ran { Ran R.holds R.tells budget (loaded_model R.holds self.old) (loaded_model R.holds self.new) }
        ensures answer { result ≡ run_answer (refused budget (loaded_model R.holds self.old)) (loaded_model R.holds self.new) }
    {
        let status = self.machine.run(budget)?;
        Ok(unless_faulted(status)?)
    }

    // The word at a location.
    pub fn peek(&self, location: u16) -> Result<Word, JobFault>
        ensures { result ≡ peeked (loaded_model R.holds self.now) location }
    {
        let word = word_at(&self.machine.parts().processor.memory, location);
        word.ok_or(JobFault::Outside(location))
    }

    // How the machine stands.
    pub fn status(&self) -> Status
        ensures { result ≡ status_of (loaded_model R.holds self.now) }
    {
        self.machine.status()
    }

    // A machine that has halted is closed; any other comes back as it was.
    pub fn close(self) -> Result<Closed<R>, (Loaded<R>, JobFault)>
        ensures { Closes R.holds self result }
    {
        match self.machine.status().phase {
            Phase::Halted => Ok(Closed {
                machine: self.machine,
            }),
            Phase::Running | Phase::Faulted(_) => Err((self, JobFault::NotHalted)),
        }
    }
}

// How a machine stands, or the fault that it is at.
fn unless_faulted(status: Status) -> Result<Status, Fault>
    ensures { result ≡ unless_faulted status.phase status }
{
    match status.phase {
        Phase::Faulted(fault) => Err(fault),
        Phase::Running | Phase::Halted => Ok(status),
    }
}

// The memory of a deck.
fn memory(deck: &Deck) -> [Word; 4000]
    ensures { cells result ≡ memory_of (assembled deck.now) }
{
    let zero = Word::wrapping(Sign::Plus, 0);
    let mut memory = [zero; 4000];
    for location in 0..4000 {
        memory[usize::from(location)] = deck.word(location).unwrap_or(zero);
    }
    memory
}

// The word of a memory at a location, if that is in it.
#[tactic(auto, unfolding(cpu::specs::Executed::cells))]
fn word_at(memory: &[Word; 4000], location: u16) -> Option<Word>
    ensures { result ≡ word_in (cells memory.now) location }
{
    memory.get(usize::from(location)).copied()
}
