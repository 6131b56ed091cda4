use crate::draft::Draft;
use symbols::Symbols;

// How far a deck was read: the location, the symbols, and a draft for each card so far; at END also one
// for each word that END adds.
#[derive(Drop)]
pub(crate) struct Progress {
    pub(crate) here: u16,
    pub(crate) symbols: Symbols,
    pub(crate) drafts: Vec<Draft>,
}
