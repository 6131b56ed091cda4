use crate::case::Case;
use crate::row::Row;
use anyhow::{Result, anyhow, ensure};
use names::Instruction;
use std::alloc::Global;
use std::fmt::Write;

// What is printed of a table: a line for each group, after its cases that differ, and at last all counts.
#[derive(Drop)]
struct Report<'a> {
    text: String,
    group: Option<Group<'a>>,
    cases: u32,
    differ: u32,
}

// A group of rows, and how many cases it has so far.
#[derive(Clone, Copy)]
struct Group<'a> {
    title: &'a str,
    cases: u32,
}

// The report on a table; an error where a line cannot be read.
pub(crate) fn report_on(heap: Global, table: &str) -> Result<String> {
    let mut report = Report {
        text: String::new(heap),
        group: None,
        cases: 0,
        differ: 0,
    };
    for (place, line) in table.lines().enumerate() {
        let number = place.saturating_add(1);
        report
            .take(heap, number, line.trim())
            .map_err(|why| anyhow!("line {number}: {why}"))?;
    }
    report.end()
}

impl<'a> Report<'a> {
    // A line: a comment, the title of a group, or a row.
    fn take(&mut self, heap: Global, number: usize, line: &'a str) -> Result<()> {
        if line.is_empty() || line.starts_with('#') {
            return Ok(());
        }
        if let Some(title) = line
            .strip_prefix('[')
            .and_then(|rest| rest.strip_suffix(']'))
        {
            self.end_group()?;
            self.group = Some(Group { title, cases: 0 });
            return Ok(());
        }
        self.take_row(number, &Row::read(heap, line)?)
    }

    // A row, with each of its instructions.
    fn take_row(&mut self, number: usize, row: &Row<'_>) -> Result<()> {
        let instructions = row.instructions;
        for i in instructions.i.first..=instructions.i.last {
            for c in instructions.c.first..=instructions.c.last {
                for f in instructions.f.first..=instructions.f.last {
                    self.take_case(number, row, i, Instruction { c, f })?;
                }
            }
        }
        Ok(())
    }

    // A case, which is executed, and told if it differs.
    fn take_case(&mut self, number: usize, row: &Row<'_>, i: u8, code: Instruction) -> Result<()> {
        let Some(group) = &mut self.group else {
            return Err(anyhow!("a row before the first group"));
        };
        group.cases = group.cases.saturating_add(1);
        self.cases = self.cases.saturating_add(1);
        let mut case = Case::read(row, i, code)?;
        let (same, came) = case.passes();
        if !same {
            self.differ = self.differ.saturating_add(1);
            let Instruction { c, f } = code;
            writeln!(self.text, "line {number}, I {i}, F {f}, C {c}:")?;
            case.tell(came, &mut self.text)?;
        }
        Ok(())
    }

    // The line of the group that ends, if there is one.
    fn end_group(&mut self) -> Result<()> {
        if let Some(Group { title, cases }) = self.group {
            ensure!(cases > 0, "{title} has no cases");
            writeln!(self.text, "{title}: {cases} cases")?;
        }
        Ok(())
    }

    fn end(mut self) -> Result<String> {
        self.end_group()?;
        ensure!(self.cases > 0, "no cases");
        let Report {
            mut text,
            cases,
            differ,
            ..
        } = self;
        writeln!(text, "{cases} cases, {differ} differ")?;
        Ok(text)
    }
}
