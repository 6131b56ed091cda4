use crate::case::{Case, Group, NONE};
use crate::outcomes::outcome;
use crate::times::Times;
use anyhow::{Context, Result, ensure};
use std::alloc::Global;

// What is printed: a line for each group, and of cases that differ their title and the lines that are missing.
#[derive(Drop)]
pub(crate) struct Report {
    pub(crate) text: String,
    pub(crate) cases: u64,
    pub(crate) differ: u64,
}

// What is printed of all groups.
pub(crate) fn compared(heap: Global, groups: &[Group<'_>]) -> Result<Report> {
    let mut report = Report {
        text: String::new(heap),
        cases: 0,
        differ: 0,
    };
    for group in groups {
        report
            .add_group(heap, group)
            .context(format_args!("{}", group.title))?;
    }
    let total = format!(in heap; "{} cases, {} differ\n", report.cases, report.differ)?;
    report.text.push_str(total.as_str())?;
    Ok(report)
}

impl Report {
    // The cases of one group, each with all of its times.
    fn add_group(&mut self, heap: Global, group: &Group<'_>) -> Result<()> {
        let mut count = 0u64;
        for case in group.cases.iter() {
            for times in case.frame.times.iter() {
                count = count.saturating_add(1);
                self.add_case(heap, case, *times)
                    .context(format_args!("{}", case.title))?;
            }
        }
        ensure!(count > 0, "no case");
        self.cases = self.cases.saturating_add(count);
        let line = format!(in heap; "{}: {count} cases\n", group.title)?;
        self.text.push_str(line.as_str())?;
        Ok(())
    }

    // Nothing of a case that comes out as wanted.
    fn add_case(&mut self, heap: Global, case: &Case<'_>, times: Times) -> Result<()> {
        let told = outcome(heap, case, times)?;
        let missing = missing(heap, told.as_str(), &case.frame.wants)?;
        let more = case.frame.whole && told.lines().count() > case.frame.wants.len();
        if missing.is_empty() && !more {
            return Ok(());
        }
        self.differ = self.differ.saturating_add(1);
        self.add_line(heap, "differs: ", case.title)?;
        for line in missing.iter() {
            self.add_line(heap, "  missing: ", line)?;
        }
        if more {
            self.add_line(heap, "  ", "there are more lines")?;
        }
        Ok(())
    }

    // One line more.
    fn add_line(&mut self, heap: Global, front: &str, line: &str) -> Result<()> {
        let line = format!(in heap; "{front}{line}\n")?;
        self.text.push_str(line.as_str())?;
        Ok(())
    }
}

// The wanted lines that do not stand in a text, in their order.
fn missing<'t>(heap: Global, text: &str, wants: &[&'t str]) -> Result<Vec<&'t str>> {
    let lines: Vec<&str> = text.lines().collect(heap)?;
    let mut missing = Vec::new(heap);
    let mut from = 0;
    for want in wants {
        match found(&lines, from, want) {
            Some(next) => from = next,
            None => missing.push(*want)?,
        }
    }
    Ok(missing)
}

// Where to look for the next wanted line, if this one stands at some place or after it. `none X` wants that no line
// begins with X.
fn found(lines: &[&str], from: usize, want: &str) -> Option<usize> {
    if let Some(front) = want.strip_prefix(NONE) {
        return lines
            .iter()
            .all(|line| !line.starts_with(front))
            .then_some(from);
    }
    let after = lines.iter().skip(from).position(|line| *line == want)?;
    Some(from.saturating_add(after).saturating_add(1))
}
