// The units that keep text: the card punch and the printer.
#[derive(Clone, Copy, PartialEq, Eq, Debug)]
pub enum Device {
    Punch,
    Printer,
}
