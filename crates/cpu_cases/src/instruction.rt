ghost use Rattle.std.specs.Prelude.{◌<◌};

use crate::reading::{count, word};
use anyhow::{Result, bail, ensure};
use names::Instruction;
use std::alloc::Global;
use word::Word;

// Bytes from the first to the last.
#[derive(Clone, Copy)]
pub(crate) struct Range {
    pub(crate) first: u8,
    pub(crate) last: u8,
    ghost small: { last < 64 },
}

// The instructions of a row: a name, an address, and the numbers that I, F and C go through.
// In the name ? stands for the letter of the register; - is no name.
#[derive(Clone, Copy)]
pub(crate) struct Instructions<'a> {
    name: &'a str,
    address: Word,
    pub(crate) i: Range,
    pub(crate) f: Range,
    pub(crate) c: Range,
}

impl Instructions<'_> {
    // As LDA +2000 0 5 8, or LD? +2000 0 5 8-15.
    pub(crate) fn read(heap: Global, text: &str) -> Result<Instructions<'_>> {
        let words: Vec<&str> = text.split_whitespace().collect(heap)?;
        let [name, address, i, f, c] = words.as_slice() else {
            bail!("{text} is not NAME ADDRESS I F C");
        };
        let address = word(address)?;
        ensure!(address.magnitude < 4096, "the address is beyond two bytes");
        Ok(Instructions {
            name,
            address,
            i: Range::read(i)?,
            f: Range::read(f)?,
            c: Range::read(c)?,
        })
    }

    // The word of one of the instructions; refused where the name is not that of C and F.
    pub(crate) fn word(&self, i: u8, code: Instruction) -> Result<Word> {
        let Instruction { c, f } = code;
        let name = self.name;
        ensure!(is_named(name, code), "{name} has not C {c} and F {f}");
        let low = u64::from(i) * 4096 + u64::from(f) * 64 + u64::from(c);
        let high = u64::from(self.address.magnitude) * 0x4_0000;
        Ok(Word::wrapping(self.address.sign, high + low))
    }
}

impl Range {
    // One number, or two with a - between, up to 63; a field, as 1:5, is a number too.
    fn read(text: &str) -> Result<Range> {
        if let Some((left, right)) = text.split_once(':') {
            let (left, right) = (count::<u8>(left)?, count::<u8>(right)?);
            ensure!(left <= right && right <= 5, "{text} is no field");
            let code = 8 * left + right;
            return Ok(Range {
                first: code,
                last: code,
            });
        }
        let (first, last) = text.split_once('-').unwrap_or((text, text));
        let (first, last) = (count::<u8>(first)?, count::<u8>(last)?);
        ensure!(first <= last && last < 64, "{text} is no range of bytes");
        Ok(Range { first, last })
    }
}

// Whether a name is that of C and F.
fn is_named(name: &str, code: Instruction) -> bool {
    if name == "-" {
        return true;
    }
    let Some(letters) = code.name() else {
        return false;
    };
    let blanks = [b' '; 4];
    name.len() <= 4
        && name
            .bytes()
            .chain(blanks)
            .zip(letters)
            .all(|(given, letter)| given == letter || given == b'?')
}
