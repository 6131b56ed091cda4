ghost use Rattle.std.specs.Prelude.{◌≡◌, ◌<◌, ◌≤◌, true, [], length, is_some, IfSome, IfOk, IfErr, MatchOption, OnOk, OnErr, slice_index_or};
ghost use Rattle.std.specs.Option.{option_map};
ghost use Rattle.table.specs.Order.{before_by};
ghost use Rattle.table.specs.Pairs.{lookup, sorted, Inserts, Finds, Holds, Lacks};

use crate::key::{Key, Natural};
use std::alloc::{AllocError, Global};
use std::marker::{Model, PhantomData};

// Pairs of a key and a value, kept in the order of the keys.
// A Vec holds them: std's map hands out no slice of its pairs, which `pairs` promises.
#[derive(Drop)]
pub struct Table<K: Key<By>, V, By = Natural> {
    pairs: Vec<(K, V)>,
    order: PhantomData<By>,
}

impl<K: Key<By>, V, By> Model for Table<K, V, By> {
    ghost use Rattle.std.specs.Prelude.{◌≡◌, true, List};
    ghost use Rattle.table.specs.Order.{before_by};
    ghost use Rattle.table.specs.Pairs.{sorted};

    ghost Value = { List (K × V) };

    ghost view = { λ t. t.pairs.items };

    ghost invariant = { λ t. sorted (before_by K.Key.cmp) t.pairs.items ≡ true };
}

impl<K: Ord, V> Table<K, V> {
    // A table with no pairs.
    pub fn new(heap: Global) -> Table<K, V>
        ensures { result ≡ [] }
    {
        Table {
            pairs: Vec::new(heap),
            order: PhantomData,
        }
    }
}

impl<K: Key<By>, V, By> Table<K, V, By> {
    // A table with no pairs, in the order that its type names.
    pub fn with_order(heap: Global) -> Table<K, V, By>
        ensures { result ≡ [] }
    {
        let pairs = Vec::new(heap);
        Table {
            pairs,
            order: PhantomData,
        }
    }

    // How many pairs there are.
    pub fn len(&self) -> usize
        ensures { result ≡ length self.now }
    {
        self.pairs.len()
    }

    // The pair at a place, in the order of the keys.
    pub fn at(&self, i: usize) -> Option<&(K, V)>
        ensures { MatchOption result (length self.now ≤ i) (λ p. (i < length self.now) × (p.now ≡ slice_index_or self.now i p.now)) }
    {
        self.pairs.get(i)
    }

    // The pairs, in the order of the keys.
    pub fn pairs(&self) -> &[(K, V)]
        ensures whole { result.now ≡ self.now }
        ensures long { length result.now ≡ length self.now }
        ensures order { sorted (before_by K.Key.cmp) result.now ≡ true }
    {
        self.pairs.as_slice()
    }

    // The place of a key.
    pub fn find(&self, key: &K) -> Option<usize>
        ensures within { IfSome result (λ i. i < length self.now) }
        ensures place { Finds K.Key.same self.now key.now result }
    {
        self.search(key).ok()
    }

    // Whether a key is there.
    pub fn contains(&self, key: &K) -> bool
        ensures { result ≡ is_some (lookup K.Key.same self.now key.now) }
    {
        self.search(key).is_ok()
    }

    // The value at a key.
    pub fn get(&self, key: &K) -> Option<&V>
        ensures { option_map (λ x. x.now) result ≡ lookup K.Key.same self.now key.now }
    {
        let i = self.search(key).ok()?;
        Some(&self.pairs[i].1)
    }

    // The place of a key, or where it would stand.
    fn search(&self, key: &K) -> Result<usize, usize>
        ensures found { IfOk result (Holds (before_by K.Key.cmp) K.Key.same self.now key.now) }
        ensures absent { IfErr result (Lacks (before_by K.Key.cmp) K.Key.same self.now key.now) }
    {
        self.pairs.binary_search_by(|pair| pair.0.order(key))
    }
}

impl<K: Key<By> + Drop, V: Drop, By> Table<K, V, By> {
    // The value stands at the key from now on; want of memory leaves the table as it was.
    #[tactic(auto, using(crate::proofs::Ordered::stored_at, crate::proofs::Ordered::stored_in))]
    pub fn insert(&mut self, key: K, value: V) -> Result<(), AllocError>
        ensures ok { OnOk result (Inserts (before_by K.Key.cmp) K.Key.same self.old key value self.new) }
        ensures err { OnErr result (self.new ≡ self.old) }
    {
        match self.search(&key) {
            Ok(i) => {
                self.pairs[i] = (key, value);
                Ok(())
            }
            Err(i) => Ok(self.pairs.insert(i, (key, value))?),
        }
    }
}
