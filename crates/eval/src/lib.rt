// Expressions worked left to right.
#![tactic(auto)]

mod exprs;
mod scope;

pub use exprs::undefined;
pub use scope::Scope;
