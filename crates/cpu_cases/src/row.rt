use crate::instruction::Instructions;
use anyhow::{Result, bail};
use std::alloc::Global;

// A row of the table: what stands before, the instructions, and what must come of each.
#[derive(Clone, Copy)]
pub(crate) struct Row<'a> {
    pub(crate) before: &'a str,
    pub(crate) instructions: Instructions<'a>,
    pub(crate) after: &'a str,
}

impl Row<'_> {
    // As A=+5 100=+7 | ADD +100 0 5 1 | on 2u A=+12 reads=100.
    pub(crate) fn read(heap: Global, line: &str) -> Result<Row<'_>> {
        let columns: Vec<&str> = line.split('|').collect(heap)?;
        let [before, instructions, after] = columns.as_slice() else {
            bail!("a row has three columns");
        };
        Ok(Row {
            before,
            instructions: Instructions::read(heap, instructions)?,
            after,
        })
    }
}
