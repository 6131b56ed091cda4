// The card reader, and the text trays of card punch and printer.
#![tactic(auto)]

mod cardcopy;
mod cards;
mod device;
mod devices;
mod fronts;
mod lines;
mod reader;
mod readers;
mod tray;
mod trays;

pub use cardcopy::copy_card;
pub use device::Device;
pub use fronts::first_cards;
pub use reader::CardReader;
pub use tray::Tray;
