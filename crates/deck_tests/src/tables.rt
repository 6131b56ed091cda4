ghost use Rattle.std.specs.Prelude.{◌==◌};
ghost use Rattle.std.proofs.Common.{rules};
ghost use Rattle.std.specs.Cmp.Rules.{comparing};
ghost use Rattle.std.specs.Ordering.{nat_cmp, on};

use std::cmp::Ordering;
use std::test::Fail;
use table::{Key, Table};

// A number with a mark. It is a key by its number alone, and `==` reads the mark too.
#[derive(Clone, Copy, PartialEq, Eq, Debug)]
struct Marked {
    number: u16,
    mark: u16,
}

// The order of the numbers.
struct ByNumber;

impl Key<ByNumber> for Marked {
    ghost cmp = { on (λ m. m.number) nat_cmp };

    ghost same = { on (λ m. m.number) ◌==◌ };

    fn order(&self, other: &Marked) -> Ordering {
        self.number.cmp(&other.number)
    }

    ghost total = { Prim.search (comparing, rules) };

    ghost ties = { Prim.search (comparing, rules) };
}

#[test]
fn keys_go_by_their_order_and_not_by_equality(rt: HostRuntime) -> Result<(), Fail> {
    let three = Marked { number: 3, mark: 1 };
    let two = Marked { number: 2, mark: 1 };
    let other_three = Marked { number: 3, mark: 2 };
    let four = Marked { number: 4, mark: 1 };
    assert!(rt; three != other_three);
    let mut table: Table<Marked, u8, ByNumber> = Table::with_order(rt.alloc());
    table.insert(three, 30)?;
    table.insert(two, 20)?;
    assert_eq!(rt; table.pairs(), [(two, 20), (three, 30)].as_slice());
    assert_eq!(rt; table.get(&other_three).copied(), Some(30));
    table.insert(other_three, 31)?;
    assert_eq!(rt; table.pairs(), [(two, 20), (other_three, 31)].as_slice());
    assert_eq!(rt; table.len(), 2);
    assert_eq!(rt; table.find(&three), Some(1));
    assert_eq!(rt; table.get(&three).copied(), Some(31));
    assert!(rt; !table.contains(&four));
    assert_eq!(rt; table.get(&four).copied(), None);
    Ok(())
}

#[test]
fn what_has_an_order_is_a_key(rt: HostRuntime) -> Result<(), Fail> {
    let mut table: Table<(u16, u16), char> = Table::new(rt.alloc());
    table.insert((2, 1), 'c')?;
    table.insert((1, 2), 'b')?;
    table.insert((1, 1), 'a')?;
    assert_eq!(rt; table.len(), 3);
    assert_eq!(rt; table.find(&(1, 2)), Some(1));
    assert_eq!(rt; table.get(&(2, 1)).copied(), Some('c'));
    assert_eq!(rt; table.get(&(2, 2)).copied(), None);
    Ok(())
}
