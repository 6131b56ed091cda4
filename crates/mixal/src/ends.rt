ghost use Rattle.std.specs.Prelude.{◌≡◌, ◌+◌, ◌≤◌, List, [], ◌∷◌, ◌++◌, map, length, IfOk, None, OnOk};
ghost use Rattle.mixal.specs.Deck.{loc_name};
ghost use Rattle.mixal.specs.Ends.{in_loc, waits, supplied_if, supplied, addressed, settled, placed, resolved, ended};
ghost use Rattle.mixal.specs.Image.{with_placed, image_of};
ghost use Rattle.mixal.specs.Steps.{Read, ended_if};
ghost use Rattle.mixal.specs.Model.{model_of, progress_of, assembled, Answers};
ghost use Rattle.names.specs.declared.kinds.Operation.TheVariants.{End};
ghost use Rattle.symbols.specs.Symbols.{entries, known_as};
ghost use Rattle.table.specs.declared.name.Name.{Name};

use crate::assembly::Assembly;
use crate::cards::{define, or_zero};
use crate::cause::{Refusal, Rejection};
use crate::causes::{check_late, is_awaited};
use crate::deck::Deck;
use crate::draft::{Draft, Made};
use crate::line::Line;
use crate::progress::Progress;
use crate::sound_card::{OperationCard, SoundCard};
use names::Operation;
use std::alloc::{AllocError, Global};
use symbols::{Meaning, Symbols};
use table::{Location, Name, Table};
use values::number;
use word::{Field, Sign, Word};
use wvalues::w_value;

impl Progress {
    // A name that waits is the location, where a word +0 is added.
    fn supply_one(&mut self, loc: Option<Name>, name: Name) -> Result<(), AllocError>
        requires { self.old.here ≤ 5000 }
        ensures state { OnOk result ((ns : List Name) → progress_of self.new ns ≡ supplied_if loc (progress_of self.old ns) name) }
        ensures step { OnOk result (self.new.here ≤ self.old.here + 1) }
    {
        if !is_waiting(&self.symbols, loc, name) {
            return Ok(());
        }
        let location = Word::wrapping(Sign::Plus, u64::from(self.here));
        self.symbols.give(name, Meaning::Defined(location))?;
        self.drafts.push(Draft {
            card: [b' '; 80],
            made: Some(Made {
                location: self.here,
                word: Word::wrapping(Sign::Plus, 0),
                awaits: None,
            }),
        })?;
        self.here += 1;
        Ok(())
    }

    // Each name that waits gets a word +0, in the order of first appearance.
    fn supply(&mut self, loc: Option<Name>, awaited: &[Name]) -> Result<(), AllocError>
        requires low { self.old.here ≤ 4000 }
        requires few { length awaited.now ≤ 600 }
        ensures { OnOk result (progress_of self.new awaited.now ≡ supplied loc awaited.now (progress_of self.old awaited.now)) }
    {
        for name in awaited {
            self.supply_one(loc, *name)?;
        }
        Ok(())
    }

    // A good END card: its LOC is the location, and the deck comes out.
    fn finish(self, heap: Global, card: &SoundCard<'_>, cards: usize) -> Result<Deck, AllocError>
        requires { cards ≤ 600 }
        ensures { IfOk result (λ d. ((ns : List Name) → assembled d ≡ ended cards (progress_of self ns) card.now.text.now)) }
    {
        let value = or_zero(w_value(self.scope(), card.address()));
        let Progress {
            here,
            mut symbols,
            drafts,
        } = self;
        let location = Word::wrapping(Sign::Plus, u64::from(here));
        define(&mut symbols, card.loc(), location)?;
        let lines = resolve_all(heap, &symbols, &drafts, card.columns)?;
        let image = image_of(heap, &lines)?;
        Ok(Deck {
            symbols,
            lines,
            image,
            start: (value.magnitude % 4096) as u16,
            cards: cards + 1,
        })
    }
}

// Whether a name waits at END, but for the one that END's LOC defines.
fn is_waiting(symbols: &Symbols, loc: Option<Name>, name: Name) -> bool
    ensures { result ≡ waits (entries symbols.now) loc name }
{
    is_awaited(symbols.meaning(name)) && !is_loc_name(loc, name)
}

// Whether a name is the one that LOC defines.
fn is_loc_name(loc: Option<Name>, name: Name) -> bool
    ensures { result ≡ in_loc loc name }
{
    loc == Some(name)
}

// An instruction's word with the value of the symbol that it waited for.
fn address(symbols: &Symbols, name: Name, word: Word) -> Word
    ensures { result ≡ addressed (known_as (entries symbols.now) name) word }
{
    symbols.word(name).map_or(word, |value| {
        word.with_field(Field { left: 0, right: 2 }, number(value))
    })
}

// A word with the value of the symbol that it waits for, if it waits for one.
fn settle(symbols: &Symbols, awaits: Option<Name>, word: Word) -> Word
    ensures { result ≡ settled (entries symbols.now) awaits word }
{
    awaits.map_or(word, |name| address(symbols, name, word))
}

// What a draft comes to, with its location.
fn place(symbols: &Symbols, made: Option<Made>) -> Option<(u16, Word)>
    ensures { result ≡ placed (entries symbols.now) made }
{
    let Made {
        location,
        word,
        awaits,
    } = made?;
    Some((location, settle(symbols, awaits, word)))
}

// The line of a draft.
fn resolve(symbols: &Symbols, draft: Draft) -> Line
    ensures { result ≡ resolved (entries symbols.now) draft }
{
    let card = draft.card;
    let at = place(symbols, draft.made);
    Line { at, card }
}

// The lines of the listing: each draft as it comes out, and END's.
fn resolve_all(
    heap: Global,
    symbols: &Symbols,
    drafts: &[Draft],
    end: [u8; 80],
) -> Result<Vec<Line>, AllocError>
    ensures { IfOk result (λ v. v.items ≡ map (resolved (entries symbols.now)) drafts.now ++ (record { at = None; card = end } ∷ [])) }
{
    let mut lines = Vec::new(heap);
    for draft in drafts {
        lines.push(resolve(symbols, *draft))?;
    }
    lines.push(Line {
        at: None,
        card: end,
    })?;
    Ok(lines)
}

// A word put at its location, if there is one.
fn put_placed(image: &mut Table<Location, Word>, at: Option<(u16, Word)>) -> Result<(), AllocError>
    ensures { OnOk result (image.new ≡ with_placed image.old at) }
{
    match at {
        Some((location, word)) => image.insert(Location(location), word),
        None => Ok(()),
    }
}

// The words of the lines by location.
fn image_of(heap: Global, lines: &[Line]) -> Result<Table<Location, Word>, AllocError>
    ensures { IfOk result (λ t. t ≡ image_of lines.now) }
{
    let mut image = Table::new(heap);
    for line in lines {
        put_placed(&mut image, line.at)?;
    }
    Ok(image)
}

impl Assembly {
    // END: the causes from 6 on, and the deck that comes out.
    pub(crate) fn end(self, heap: Global, card: &SoundCard<'_>) -> Result<Deck, Refusal>
        requires { Read (model_of self) card.now.text.now End }
        ensures { Answers result (ended_if (model_of self) card.now.text.now) }
    {
        let Assembly {
            mut progress,
            awaited,
        } = self;
        let cards = progress.drafts.len();
        progress.supply(card.loc(), &awaited)?;
        let end = OperationCard {
            sound: *card,
            operation: Operation::End,
        };
        // END takes no future symbol.
        if let Err(cause) = check_late(progress.scope(), &end, None, false) {
            return Err(Refusal::Rejected(Rejection {
                cause,
                card: cards + 1,
            }));
        }
        Ok(progress.finish(heap, card, cards)?)
    }
}
