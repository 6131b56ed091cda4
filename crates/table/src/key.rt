ghost use Rattle.std.specs.Prelude.{◌≡◌, Bool};
ghost use Rattle.std.specs.Cmp.{IsTotalOrder};
ghost use Rattle.std.specs.Ordering.{eq_by_cmp};
ghost use Rattle.std.specs.declared.cmp.Ordering.{Ordering};

use std::cmp::Ordering;

// A kind of key: its order, and the laws that a table asks of it. `By` names the order.
// Every type with an `Ord` is one by `Natural`, with no more to write. A type with a total order of its
// own that its `==` need not follow can be one too, by a name and an impl of its own.
pub trait Key<By>: Sized {
    ghost cmp: { Self → Self → Ordering };

    ghost same: { Self → Self → Bool };

    // Where this key stands from the other's side.
    fn order(&self, other: &Self) -> Ordering
        ensures { result ≡ cmp self.now other.now };

    // The order is total.
    ghost total: { IsTotalOrder cmp };

    // Keys are the same just where the order does not tell them apart.
    ghost ties: { (a b : Self) → same a b ≡ eq_by_cmp cmp a b };
}

// The order of a type's `Ord`.
pub struct Natural;

impl<T: Ord> Key<Natural> for T {
    ghost cmp = { T.cmp };

    ghost same = { T.eq };

    ghost total = { T.total };

    ghost ties = { T.matches_eq };

    fn order(&self, other: &T) -> Ordering {
        self.cmp(other)
    }
}
