// A card's text taken apart: its columns, symbols, expressions and the parts of an address.
#![tactic(auto)]

mod address;
mod atoms;
mod columns;
mod exprs;
mod pieces;
mod spans;
mod symbols;
mod terms;

pub use address::{Parts, Piece};
pub use columns::{address_text, alf_text, gap_filled, is_remark, loc_text, op_text};
pub use exprs::{first_term, is_expression, next_term};
pub use pieces::{first_piece, parts};
pub use symbols::{is_symbol, name_codes};
pub use terms::{Atom, Operator, Term};
