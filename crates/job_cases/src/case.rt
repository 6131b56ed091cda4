use crate::cards::add_card;
use crate::times::{Times, USUAL};
use anyhow::{Result, bail, ensure};
use std::alloc::{AllocError, Global};

// What is done with the cards of a case: the deck is listed; it is listed and run once; mixjob runs it; or the calls
// that are the wanted lines are made.
#[derive(Clone, Copy)]
pub(crate) enum Act {
    List,
    Run,
    Mixjob,
    Call,
}

impl Act {
    // The act of a word.
    pub(crate) fn read(word: &str) -> Result<Act> {
        match word {
            "list" => Ok(Act::List),
            "run" => Ok(Act::Run),
            "mixjob" => Ok(Act::Mixjob),
            "call" => Ok(Act::Call),
            _ => bail!("no such act: {word}"),
        }
    }
}

// The front of what is wanted where no line is to begin with the rest.
pub(crate) const NONE: &str = "none ";

// How a case is run, and what is wanted of it: what is done, the times of the units, the cards behind its own, the
// lines that are to come out, and whether they are all.
#[derive(Drop)]
pub(crate) struct Frame<'t> {
    pub(crate) act: Act,
    pub(crate) times: Vec<Times>,
    pub(crate) after: Vec<&'t str>,
    pub(crate) wants: Vec<&'t str>,
    pub(crate) whole: bool,
}

impl<'t> Frame<'t> {
    // A deck that is listed.
    pub(crate) fn new(heap: Global) -> Frame<'t> {
        Frame {
            act: Act::List,
            times: Vec::new(heap),
            after: Vec::new(heap),
            wants: Vec::new(heap),
            whole: false,
        }
    }

    // The frame of a case in a group; its times are yet to come.
    fn of_case(&self, heap: Global) -> Result<Frame<'t>, AllocError> {
        Ok(Frame {
            act: self.act,
            times: Vec::new(heap),
            after: self.after.clone()?,
            wants: self.wants.clone()?,
            whole: self.whole,
        })
    }
}

// A case: its title, the text of its cards, and its frame.
#[derive(Drop)]
pub(crate) struct Case<'t> {
    pub(crate) title: &'t str,
    pub(crate) text: String,
    pub(crate) frame: Frame<'t>,
}

impl<'t> Case<'t> {
    // A case of a group, without cards.
    pub(crate) fn new(heap: Global, title: &'t str, group: &Frame<'t>) -> Result<Case<'t>> {
        Ok(Case {
            title,
            text: String::new(heap),
            frame: group.of_case(heap)?,
        })
    }

    // The case with the cards behind its own, and times: its own, or the group's, or the usual ones.
    pub(crate) fn finished(mut self, group: &Frame<'t>) -> Result<Case<'t>> {
        ensure!(
            self.frame.wants.iter().any(|want| !want.starts_with(NONE)),
            "no wanted line"
        );
        let case = &mut self;
        for card in case.frame.after.iter() {
            add_card(&mut case.text, card)?;
        }
        if case.frame.times.is_empty() {
            case.frame.times = group.times.clone()?;
        }
        if case.frame.times.is_empty() {
            case.frame.times.push(USUAL)?;
        }
        Ok(self)
    }
}

// Cases on one matter.
#[derive(Drop)]
pub(crate) struct Group<'t> {
    pub(crate) title: &'t str,
    pub(crate) cases: Vec<Case<'t>>,
}
