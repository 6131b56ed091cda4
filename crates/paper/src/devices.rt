ghost use Rattle.std.specs.Prelude.{◌≡◌};
ghost use Rattle.paper.specs.Tray.{device_number, device_size};

use crate::device::Device;

impl Device {
    // The number of the device's unit.
    pub fn number(self) -> u8
        ensures { result ≡ device_number self }
    {
        match self {
            Device::Punch => 17,
            Device::Printer => 18,
        }
    }

    // How many words a block has.
    pub(crate) fn block_size(self) -> usize
        ensures { result ≡ device_size self }
    {
        match self {
            Device::Punch => 16,
            Device::Printer => 24,
        }
    }
}
