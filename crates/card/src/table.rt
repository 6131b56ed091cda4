ghost use Rattle.std.specs.Prelude.{◌≡◌};
ghost use Rattle.card.specs.Table.{character_of, code_of, run_code, mark_code, Stands, Undo};

// The characters of the codes 0 to 55.
const CHARACTERS: &[u8; 56] = b" ABCDEFGHI~JKLMNOPQR[]STUVWXYZ0123456789.,()+-*/=$<>@;:'";

// The character of a code; a byte above 55 is a blank.
#[tactic(auto, using(crate::proofs::Rule::entry_or_blank), unfolding(crate::specs::Table::characters))]
pub fn character(code: u8) -> u8
    ensures { result ≡ character_of code }
{
    CHARACTERS.get(usize::from(code)).copied().unwrap_or(b' ')
}

// The code of a character, if it has one. The runs are told apart in a function of their own: a
// `match` in this one has nine ends, and the check left the promises open at each.
// No `TryFrom`: that needs a type of the codes alone, and callers have bytes.
pub fn code(character: u8) -> Option<u8>
    ensures value { result ≡ code_of character }
    ensures back { Stands character result }
    ensures rule { Undo }
{
    by_run(character)
}

// Most codes come in runs: the letters in three, the digits in one.
fn by_run(character: u8) -> Option<u8>
    ensures { result ≡ run_code character }
{
    match character {
        b' ' => Some(0),
        b'A'..=b'I' => Some(character - b'A' + 1),
        b'~' => Some(10),
        b'J'..=b'R' => Some(character - b'J' + 11),
        b'[' => Some(20),
        b']' => Some(21),
        b'S'..=b'Z' => Some(character - b'S' + 22),
        b'0'..=b'9' => Some(character - b'0' + 30),
        _ => by_mark(character),
    }
}

// The marks have their codes one by one.
fn by_mark(character: u8) -> Option<u8>
    ensures { result ≡ mark_code character }
{
    match character {
        b'.' => Some(40),
        b',' => Some(41),
        b'(' => Some(42),
        b')' => Some(43),
        b'+' => Some(44),
        b'-' => Some(45),
        b'*' => Some(46),
        b'/' => Some(47),
        b'=' => Some(48),
        b'$' => Some(49),
        b'<' => Some(50),
        b'>' => Some(51),
        b'@' => Some(52),
        b';' => Some(53),
        b':' => Some(54),
        b'\'' => Some(55),
        _ => None,
    }
}
