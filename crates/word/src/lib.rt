// The words of MIX: a sign and five bytes, read and stored by fields.
#![tactic(auto)]

mod field;
mod fields;
mod index;
mod indices;
mod powers;
mod sign;
mod word;
mod words;

pub use field::{Field, NoField};
pub use index::{BeyondIndex, Index};
pub use powers::power;
pub use sign::Sign;
pub use word::Word;
