ghost use Rattle.std.specs.Prelude.{◌≡◌};
ghost use Rattle.lines.specs.Buffer.{too_long_number, Copied};

use crate::buffer::TooLong;

impl TooLong {
    // The number of this refusal. No `From`: `number` says which number is meant, a conversion doesn't.
    pub fn number(self) -> u8
        ensures { result ≡ too_long_number }
    {
        22
    }
}

// Copies the text to the buffer's front and answers its length; a buffer too short is left as it stood.
pub fn copy_out(text: &[u8], buffer: &mut [u8]) -> Result<usize, TooLong>
    ensures { Copied text.now buffer.old buffer.new result }
{
    let length = text.len();
    // `get_mut(..length)` tells nothing of what the buffer holds in the end, so its length is tested.
    if buffer.len() < length {
        return Err(TooLong { length });
    }
    buffer[..length].copy_from_slice(text);
    Ok(length)
}
