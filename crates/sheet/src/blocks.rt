ghost use Rattle.std.specs.Prelude.{◌≡◌, ◌∷◌, ◌++◌, OnOk, List, ℕ};
ghost use Rattle.sheet.specs.Sheet.{block_line, block_lines};

use card::trim;
use rack::{Rack, Unit};
use std::alloc::AllocError;

// Adds the lines of a unit's blocks.
pub(crate) fn add_blocks<R: Rack>(
    out: &mut Vec<u8>,
    rack: &R,
    unit: Unit,
    letter: u8,
) -> Result<(), AllocError>
    ensures { OnOk result (out.new.items ≡ out.old.items ++ block_lines letter unit.number (R.holds rack.now unit.number)) }
{
    let blocks = rack.ask(unit).map_or(0, |standing| standing.blocks);
    for block in 0..blocks {
        add_block(out, letter, rack.text(unit, block))?;
    }
    Ok(())
}

// Adds the line of a block: a letter and the text.
fn add_block(out: &mut Vec<u8>, letter: u8, text: [u8; 120]) -> Result<(), AllocError>
    ensures { OnOk result (out.new.items ≡ out.old.items ++ block_line letter text) }
{
    let mut line = [b' '; 122];
    line[0] = letter;
    line[2..].copy_from_slice(&text);
    out.extend_from_slice(trim(&line))?;
    out.push(b'\n')?;
    Ok(())
}
