ghost use Rattle.std.specs.Prelude.{◌≡◌};
ghost use Rattle.names.specs.Times.{TimeLaws, base_time, time_of};

use super::kinds::Instruction;

// The times of the codes 0 to 63.
static TIMES: [u8; 64] = [
    1, 2, 2, 10, 12, 10, 2, 1, 2, 2, 2, 2, 2, 2, 2, 2, 2, 2, 2, 2, 2, 2, 2, 2, 2, 2, 2, 2, 2, 2, 2,
    2, 2, 2, 1, 1, 1, 1, 1, 1, 1, 1, 1, 1, 1, 1, 1, 1, 1, 1, 1, 1, 1, 1, 1, 1, 2, 2, 2, 2, 2, 2, 2,
    2,
];

const MOVE: u8 = 7;

impl Instruction {
    // The time of an operation with this C and F: MOVE takes two units more for each word that it moves.
    // A C above 63 is no code, and takes 0.
    #[tactic(auto, using(crate::proofs::Clock::time_laws))]
    pub fn time(self) -> u32
        ensures value { result ≡ time_of self.c self.f }
        ensures rule { TimeLaws }
    {
        let base = u32::from(base_time(self.c));
        if self.c == MOVE {
            base + 2 * u32::from(self.f)
        } else {
            base
        }
    }
}

// What the table has for a code.
fn base_time(c: u8) -> u8
    ensures { result ≡ base_time c }
{
    TIMES.get(usize::from(c)).copied().unwrap_or(0)
}
