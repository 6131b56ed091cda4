ghost use Rattle.std.specs.Prelude.{◌≡◌, ◌<◌, ◌^◌, true, [], length, OnOk, OnErr};
ghost use Rattle.symbols.specs.Symbols.{entries, meaning_of, word_in, known_as};
ghost use Rattle.table.specs.Keys.{name_before, name_same};
ghost use Rattle.table.specs.Pairs.{sorted, Inserts};

use crate::meaning::Meaning;
use crate::symbols::Symbols;
use std::alloc::{AllocError, Global};
use table::{Name, Table};
use word::Word;

impl Meaning {
    // The word that the symbol was defined by, if it was.
    pub fn word(self) -> Option<Word>
        ensures { result ≡ word_in self }
    {
        match self {
            Meaning::Defined(word) => Some(word),
            Meaning::Awaited => None,
        }
    }
}

impl Symbols {
    // No symbols.
    pub fn new(heap: Global) -> Symbols
        ensures { entries result ≡ [] }
    {
        Symbols {
            table: Table::new(heap),
        }
    }

    // How many different names there are; memory has room for no more than the bound.
    pub fn len(&self) -> usize
        ensures count { result ≡ length (entries self.now) }
        ensures bound { result < 2 ^ 63 }
    {
        self.entries().len()
    }

    // The names with their meanings, in the order of the names.
    pub fn entries(&self) -> &[(Name, Meaning)]
        ensures whole { result.now ≡ entries self.now }
        ensures order { sorted name_before result.now ≡ true }
    {
        self.table.pairs()
    }

    // What a name means, if it has appeared.
    pub fn meaning(&self, name: Name) -> Option<Meaning>
        ensures { result ≡ meaning_of (entries self.now) name }
    {
        self.table.get(&name).copied()
    }

    // The word that a symbol was defined by.
    pub fn word(&self, name: Name) -> Option<Word>
        ensures { result ≡ known_as (entries self.now) name }
    {
        self.meaning(name).and_then(Meaning::word)
    }

    // The name has the meaning from now on; want of memory leaves the symbols as they were.
    pub fn give(&mut self, name: Name, meaning: Meaning) -> Result<(), AllocError>
        ensures ok { OnOk result (Inserts name_before name_same (entries self.old) name meaning (entries self.new)) }
        ensures err { OnErr result (entries self.new ≡ entries self.old) }
    {
        self.table.insert(name, meaning)
    }
}
