ghost use Rattle.std.specs.Prelude.{◌≡◌};
ghost use Rattle.names.specs.Laws.{Bytes, NameLaws};
ghost use Rattle.names.specs.Names.{coded, instruction_of, lists_field, name_of, operation_of};
ghost use Rattle.names.specs.Order.{Columns, key_of};

use super::kinds::{Instruction, Operation};
use super::table::TABLE;

// What a name stands for: four columns, with blanks after a shorter name.
#[tactic(auto, using(crate::proofs::Found::name_laws))]
pub fn operation(name: [u8; 4]) -> Option<Operation>
    ensures value { result ≡ operation_of name }
    ensures bytes { Bytes result }
    ensures rule { NameLaws }
{
    let wanted = key(name);
    TABLE
        .binary_search_by_key(&wanted, |line| key(line.0))
        .ok()
        .map(|place| TABLE[place].1)
}

impl Instruction {
    // The name of the operation with this C and F. The F counts where it tells operations of one C apart.
    #[tactic(auto, using(crate::proofs::Found::name_laws))]
    pub fn name(self) -> Option<[u8; 4]>
        ensures value { result ≡ name_of self.c self.f }
        ensures rule { NameLaws }
    {
        let (name, _) = TABLE.iter().find(|line| is_of(line.1, self))?;
        Some(*name)
    }
}

// A name as a number, by which names are ordered.
fn key(name: [u8; 4]) -> u32
    ensures value { result ≡ key_of name }
    ensures columns { Columns name }
{
    u32::from_be_bytes(name)
}

// Whether an operation is that of an instruction's C and F.
fn is_of(found: Operation, wanted: Instruction) -> bool
    ensures { result ≡ coded wanted.c wanted.f (instruction_of found) }
{
    matches!(found, Operation::Machine(i) if i.c == wanted.c && (i.f == wanted.f || !lists_field(wanted.c)))
}

// Whether the F tells operations of one C apart.
fn lists_field(c: u8) -> bool
    ensures { result ≡ lists_field c }
{
    matches!(c, 5 | 6 | 39..=55)
}
