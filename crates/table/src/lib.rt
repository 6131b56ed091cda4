// Tables kept in the order of their keys, for any kind of key whose order keeps the laws.
#![tactic(auto)]

mod key;
mod location;
mod name;
mod table;

pub use key::{Key, Natural};
pub use location::Location;
pub use name::Name;
pub use table::Table;
