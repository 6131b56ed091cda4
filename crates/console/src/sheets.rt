ghost use Rattle.std.specs.Prelude.{◌≡◌, IfOk};
ghost use Rattle.console.specs.Calls.{closed_model, SheetGiven, SheetWritten};
ghost use Rattle.sheet.specs.Sheet.{front_of, mark_line, sheet_of};

use crate::closed::Closed;
use crate::fault::JobFault;
use lines::copy_out;
use rack::Rack;
use sheet::{front_text, mark_line, sheet_text};
use std::alloc::{AllocError, Global};

impl<R: Rack + Drop> Closed<R> {
    // The sheet is copied to the buffer's front, and its length is told; the machine is used up. Where the buffer
    // is too short, or memory is wanting, both come back as they were.
    pub fn sheet(self, heap: Global, buffer: &mut [u8]) -> Result<usize, (Closed<R>, JobFault)>
        ensures { SheetGiven R.holds self buffer.old buffer.new result }
    {
        match write_sheet(heap, &self, buffer) {
            Ok(length) => Ok(length),
            Err(fault) => Err((self, fault)),
        }
    }
}

impl<R: Rack> Closed<R> {
    // The sheet.
    pub fn text(&self, heap: Global) -> Result<Vec<u8>, AllocError>
        ensures { IfOk result (λ v. v.items ≡ sheet_of (closed_model R.holds self.now)) }
    {
        sheet_text(heap, self.machine.parts())
    }

    // The sheet but for the clock's line.
    pub fn front(&self, heap: Global) -> Result<Vec<u8>, AllocError>
        ensures { IfOk result (λ v. v.items ≡ front_of (closed_model R.holds self.now)) }
    {
        front_text(heap, self.machine.parts())
    }

    // Whether the watch vouches for the deck, or its mark.
    pub fn verdict(&self, heap: Global) -> Result<Vec<u8>, AllocError>
        ensures { IfOk result (λ v. v.items ≡ mark_line (closed_model R.holds self.now).mark) }
    {
        mark_line(heap, self.machine.parts().mark)
    }
}

// The sheet in the buffer.
fn write_sheet<R: Rack>(
    heap: Global,
    closed: &Closed<R>,
    buffer: &mut [u8],
) -> Result<usize, JobFault>
    ensures { SheetWritten (closed_model R.holds closed.now) buffer.old buffer.new result }
{
    let text = closed.text(heap)?;
    Ok(copy_out(&text, buffer)?)
}
