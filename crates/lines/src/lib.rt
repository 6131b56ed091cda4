// The lines of listings and sheets, and a text for the caller's buffer.
#![tactic(auto)]

mod buffer;
mod buffers;
mod texts;

pub use buffer::TooLong;
pub use buffers::copy_out;
pub use texts::{list_line, location_text, memory_text, symbol_text, word_text};
