use crate::cards::{add_card, add_copies};
use crate::case::{Act, Case, Frame, Group};
use crate::rows::{Column, add_row};
use crate::times::Times;
use anyhow::{Context, Result, bail, ensure};
use std::alloc::Global;

// A table that is read line by line: its groups, the frame of the last of them, and the case that is being read.
#[derive(Drop)]
struct Reading<'t> {
    heap: Global,
    groups: Vec<Group<'t>>,
    frame: Frame<'t>,
    open: Option<Case<'t>>,
}

// The groups of a table.
pub(crate) fn groups<'t>(heap: Global, table: &'t str) -> Result<Vec<Group<'t>>> {
    let mut reading = Reading {
        heap,
        groups: Vec::new(heap),
        frame: Frame::new(heap),
        open: None,
    };
    for (before, line) in table.lines().enumerate() {
        reading
            .line(line)
            .context(format_args!("line {}", before.saturating_add(1)))?;
    }
    reading.close().context("the last line")?;
    Ok(reading.groups)
}

impl<'t> Reading<'t> {
    // One line more: a word in the first eight columns, and what it is said of. Lines that begin with # are remarks.
    fn line(&mut self, line: &'t str) -> Result<()> {
        if line.is_empty() || line.starts_with('#') {
            return Ok(());
        }
        let (word, said) = line.split_at_checked(8).unwrap_or((line, ""));
        match word.trim_end() {
            "group" => self.group(said),
            "case" => self.case(said),
            "code" => self.row(Column::Operation, said),
            "deck" => self.row(Column::First, said),
            "line" => self.listed(said),
            word => self.detail(word, said),
        }
    }

    // A new group.
    fn group(&mut self, title: &'t str) -> Result<()> {
        self.close()?;
        self.frame = Frame::new(self.heap);
        let cases = Vec::new(self.heap);
        self.groups.push(Group { title, cases })?;
        Ok(())
    }

    // A new case, whose details follow.
    fn case(&mut self, title: &'t str) -> Result<()> {
        self.close()?;
        self.open = Some(Case::new(self.heap, title, &self.frame)?);
        Ok(())
    }

    // A case of one line: its cards, its times and what is wanted of it.
    fn row(&mut self, column: Column, said: &'t str) -> Result<()> {
        self.case(said.trim())?;
        if let Some(case) = &mut self.open {
            add_row(case, column, said)?;
        }
        self.close()
    }

    // A case of one card, and its line in the listing.
    fn listed(&mut self, line: &'t str) -> Result<()> {
        self.case(line.trim())?;
        self.detail("list", line)?;
        self.close()
    }

    // A detail of the open case.
    fn detail(&mut self, word: &str, said: &'t str) -> Result<()> {
        match (&mut self.open, word) {
            (Some(case), "card") => add_card(&mut case.text, said),
            (Some(case), "copies") => add_copies(&mut case.text, said),
            (Some(case), "list") => add_listed(case, said),
            (Some(case), _) => add_to_frame(&mut case.frame, word, said),
            (None, _) => add_to_frame(&mut self.frame, word, said),
        }
    }

    // Puts the open case into the last group.
    fn close(&mut self) -> Result<()> {
        let Some(case) = self.open.take() else {
            return Ok(());
        };
        let title = case.title;
        let case = case.finished(&self.frame).context(title)?;
        let group = self.groups.last_mut().context("no group")?;
        group.cases.push(case)?;
        Ok(())
    }
}

// A line of the listing is wanted; its card stands from column 24 on.
fn add_listed<'t>(case: &mut Case<'t>, line: &'t str) -> Result<()> {
    case.frame.wants.push(line)?;
    if let Some((_, card)) = line.split_at_checked(23) {
        add_card(&mut case.text, card)?;
    }
    Ok(())
}

// A detail of a group or a case.
fn add_to_frame<'t>(frame: &mut Frame<'t>, word: &str, said: &'t str) -> Result<()> {
    match word {
        "do" => frame.act = Act::read(said)?,
        "times" => frame.times.push(Times::read(said)?)?,
        "after" => frame.after.push(said)?,
        "want" => frame.wants.push(said)?,
        "whole" => {
            ensure!(said.is_empty(), "a word too many: {said}");
            frame.whole = true;
        }
        _ => bail!("no such word: {word}"),
    }
    Ok(())
}
