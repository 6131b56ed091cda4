use word::Word;

// What a symbol means: the word that it was defined by, or that it is named and not yet defined.
// An enum of its own: at a look-up Option<Option<Word>> would stand in its place, which says less.
#[derive(Clone, Copy, PartialEq, Eq, Debug)]
pub enum Meaning {
    Defined(Word),
    Awaited,
}
