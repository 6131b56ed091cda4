ghost use Rattle.std.specs.Prelude.{◌≡◌, pos, ◌-ℤ◌};
ghost use Rattle.arith.specs.Sums.{entered};
ghost use Rattle.word.specs.Sign.{opposite};
ghost use Rattle.word.specs.Word.{value, negative};

use word::{Sign, Word};

// What ENT loads: m, and where m is 0 the zero with the instruction's sign.
pub fn enter(instruction: Sign, m: Word) -> Word
    ensures word { result ≡ entered instruction m }
    ensures number { value result ≡ value m }
    ensures zero { m.magnitude ≡ 0 → result.sign ≡ instruction }
{
    let sign = if m.magnitude == 0 {
        instruction
    } else {
        m.sign
    };
    Word::wrapping(sign, u64::from(m.magnitude))
}

// What ENN loads: -m, and where m is 0 the zero with the sign that the instruction has not.
pub fn enter_negative(instruction: Sign, m: Word) -> Word
    ensures word { result ≡ negative (entered instruction m) }
    ensures number { value result ≡ pos 0 -ℤ value m }
    ensures zero { m.magnitude ≡ 0 → result.sign ≡ opposite instruction }
{
    enter(instruction, m).negated()
}
