// What units of input and output hold, and the one interface of all racks of units.
#![tactic(auto)]

mod areas;
mod fault;
mod kind;
mod numbers;
mod rack;
mod request;
mod requests;
mod standing;
mod unit;

pub use areas::{block_of, fill};
pub use fault::UnitFault;
pub use kind::Kind;
pub use rack::Rack;
pub use request::{Request, Transfer};
pub use requests::carry_out;
pub use standing::{Ring, Standing};
pub use unit::Unit;
