ghost use Rattle.std.specs.Prelude.{◌≡◌, ◌∷◌, ◌++◌, OnOk, List, ℕ};
ghost use Rattle.cpu.specs.Executed.{cells};
ghost use Rattle.sheet.specs.Sheet.{indicator_line, is_plus_zero, j_line, memory_line_if, memory_text, register_line, registers_text, toggle_line, word_line};

use cpu::{Register, Registers};
use lines::{memory_text, word_text};
use machine::J;
use std::alloc::AllocError;
use std::cmp::Ordering;
use word::{Sign, Word};

// Adds the registers that are not +0.
pub(crate) fn add_registers(out: &mut Vec<u8>, registers: &Registers) -> Result<(), AllocError>
    ensures { OnOk result (out.new.items ≡ out.old.items ++ registers_text registers.now) }
{
    add_register(out, b"A", registers.get(Register::A))?;
    add_register(out, b"I1", registers.get(Register::I1))?;
    add_register(out, b"I2", registers.get(Register::I2))?;
    add_register(out, b"I3", registers.get(Register::I3))?;
    add_register(out, b"I4", registers.get(Register::I4))?;
    add_register(out, b"I5", registers.get(Register::I5))?;
    add_register(out, b"I6", registers.get(Register::I6))?;
    add_register(out, b"X", registers.get(Register::X))
}

// Adds J's word, or that it is unsettled.
pub(crate) fn add_j(out: &mut Vec<u8>, j: J) -> Result<(), AllocError>
    ensures { OnOk result (out.new.items ≡ out.old.items ++ j_line j) }
{
    if j.settled {
        add_word(out, b"J", Word::wrapping(Sign::Plus, u64::from(j.location)))
    } else {
        out.extend_from_slice(b"J UNSETTLED\n")
    }
}

// Adds the words of memory that are not +0.
pub(crate) fn add_memory(out: &mut Vec<u8>, memory: &[Word; 4000]) -> Result<(), AllocError>
    ensures { OnOk result (out.new.items ≡ out.old.items ++ memory_text (cells memory.now)) }
{
    for location in 0..4000u16 {
        add_cell(out, location, memory[usize::from(location)])?;
    }
    Ok(())
}

// The overflow toggle's line.
pub(crate) fn toggle_line(on: bool) -> &'static [u8]
    ensures { result.now ≡ toggle_line on }
{
    if on { b"OV ON\n" } else { b"OV OFF\n" }
}

// The comparison indicator's line.
pub(crate) fn indicator_line(indicator: Ordering) -> &'static [u8]
    ensures { result.now ≡ indicator_line indicator }
{
    match indicator {
        Ordering::Less => b"CI L\n",
        Ordering::Equal => b"CI E\n",
        Ordering::Greater => b"CI G\n",
    }
}

// Adds the line of a word in memory, unless it is +0.
fn add_cell(out: &mut Vec<u8>, location: u16, word: Word) -> Result<(), AllocError>
    ensures { OnOk result (out.new.items ≡ out.old.items ++ memory_line_if location word) }
{
    if is_plus_zero(word) {
        return Ok(());
    }
    out.extend_from_slice(&memory_text(location, word))?;
    Ok(())
}

// Adds a register's line, unless its word is +0.
fn add_register(out: &mut Vec<u8>, label: &[u8], word: Word) -> Result<(), AllocError>
    ensures { OnOk result (out.new.items ≡ out.old.items ++ register_line label.now word) }
{
    if is_plus_zero(word) {
        return Ok(());
    }
    add_word(out, label, word)
}

// Adds a line of a label and a word.
fn add_word(out: &mut Vec<u8>, label: &[u8], word: Word) -> Result<(), AllocError>
    ensures { OnOk result (out.new.items ≡ out.old.items ++ word_line label.now word) }
{
    out.extend_from_slice(label)?;
    out.push(b' ')?;
    out.extend_from_slice(&word_text(word))?;
    out.push(b'\n')?;
    Ok(())
}

// Whether a word is +0.
fn is_plus_zero(word: Word) -> bool
    ensures { result ≡ is_plus_zero word }
{
    matches!(word.sign, Sign::Plus) && word.magnitude == 0
}
