use symbols::Symbols;

// Where an ADDRESS is read: the symbols so far, and the location that * stands for.
#[derive(Clone, Copy)]
pub struct Scope<'a> {
    pub symbols: &'a Symbols,
    pub here: u16,
}
