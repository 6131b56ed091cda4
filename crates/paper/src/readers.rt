ghost use Rattle.std.specs.Prelude.{◌≡◌, MatchOption, None, Some, Err};
ghost use Rattle.paper.specs.CardReader.{held, held_by, reader_holds, reader_tells, read_answer};
ghost use Rattle.paper.specs.Reader.{alone, cards_loaded};
ghost use Rattle.rack.specs.Transfers.{After, received, on_unit, read_next, take_from, put_to, shift_of};
ghost use Rattle.rack.specs.declared.request.Request.{Request};

use crate::cards::Cards;
use crate::fronts::count_cards;
use crate::reader::CardReader;
use card::{first_card, read_card};
use rack::{Rack, Request, Ring, Standing, Unit, UnitFault, fill};
use word::Word;

// The number of the card reader.
const READER: u8 = 16;

impl<'t> CardReader<'t> {
    // A reader of the cards of a text, at the first of them; absent where its capacity is over 1,000, or has no
    // room for all cards. It tells the same time for all transfers.
    pub fn new(text: &'t [u8], capacity: u16, time: u16) -> CardReader<'t>
        ensures holds { reader_holds result ≡ alone 16 (cards_loaded capacity text.now) }
        ensures time { (q : Request) → reader_tells result q ≡ time }
    {
        CardReader {
            cards: Cards::load(text, capacity),
            time,
        }
    }

    // The cards, where the unit is the reader and present.
    fn at(&self, unit: Unit) -> Option<Cards<'t>>
        ensures { MatchOption result (reader_holds self.now unit.number ≡ None) (λ c. (unit.number ≡ 16) × (self.now.cards ≡ Some c)) }
    {
        if unit.number == READER {
            self.cards
        } else {
            None
        }
    }

    // The cards after one is read and its words, where the unit is the reader and there is one that can be read.
    fn next(&self, unit: Unit) -> Result<(Cards<'t>, [Word; 16]), UnitFault>
        ensures { read_answer result ≡ on_unit unit (λ k. read_next unit) (reader_holds self.now unit.number) }
    {
        match self.at(unit) {
            Some(cards) => cards.read(unit),
            None => Err(UnitFault::Absent(unit)),
        }
    }

    // Why the unit takes neither a Put nor a Shift.
    fn refusal(&self, unit: Unit) -> UnitFault
        ensures { Err result ≡ on_unit unit (λ k h. Err (UnitFault.NotAllowed unit)) (reader_holds self.now unit.number) }
    {
        match self.at(unit) {
            Some(_) => UnitFault::NotAllowed(unit),
            None => UnitFault::Absent(unit),
        }
    }
}

impl<'t> Cards<'t> {
    // The cards of a text, none of them read; none where the rules do not allow them.
    fn load(text: &'t [u8], capacity: u16) -> Option<Cards<'t>>
        ensures { held_by result ≡ cards_loaded capacity text.now }
    {
        if capacity > 1000 {
            return None;
        }
        let blocks = count_cards(text, capacity)?;
        Some(Cards {
            text,
            rest: text,
            capacity,
            blocks,
            position: 0,
        })
    }

    // The cards after one of them is read, and its words.
    fn read(self, unit: Unit) -> Result<(Cards<'t>, [Word; 16]), UnitFault>
        ensures { read_answer result ≡ read_next unit (held self.entry) }
    {
        let Some((card, rest)) = first_card(self.rest) else {
            return Err(UnitFault::NoBlock(unit, self.position));
        };
        let Some(words) = read_card(card) else {
            return Err(UnitFault::Damaged(unit, self.position));
        };
        let after = Cards {
            text: self.text,
            rest,
            capacity: self.capacity,
            blocks: self.blocks,
            position: self.position + 1,
        };
        Ok((after, words))
    }
}

impl Rack for CardReader<'_> {
    ghost use Rattle.paper.specs.Lawful.{reader_sound};

    ghost holds = { reader_holds };

    ghost tells = { reader_tells };

    fn ask(&self, unit: Unit) -> Option<Standing> {
        let cards = self.at(unit)?;
        Some(Standing {
            capacity: cards.capacity,
            blocks: cards.blocks,
            position: cards.position,
            ring: Ring::In,
        })
    }

    #[tactic(auto, using(crate::proofs::Reading::no_text), unfolding(rack::specs::Units::columns))]
    fn text(&self, _unit: Unit, _block: u16) -> [u8; 120] {
        [b' '; 120]
    }

    fn time(&mut self, _request: Request) -> u16
        ensures told { result ≡ reader_tells self.old _request }
        ensures same { self.new ≡ self.old }
    {
        self.time
    }

    fn take(&mut self, unit: Unit, _block: u16, area: &mut [Word]) -> Result<(), UnitFault>
        ensures units { After unit (take_from unit _block (reader_holds self.old unit.number)) (reader_holds self.old) (reader_holds self.new) result }
        ensures area { area.new ≡ received (take_from unit _block (reader_holds self.old unit.number)) area.old }
        // No transfer alters the time.
        ensures time { reader_tells self.new ≡ reader_tells self.old }
    {
        let (after, words) = self.next(unit)?;
        fill(area, &words);
        self.cards = Some(after);
        Ok(())
    }

    #[tactic(auto, using(crate::proofs::Reading::no_put))]
    fn put(&mut self, unit: Unit, _block: u16, _area: &[Word]) -> Result<(), UnitFault>
        ensures units { After unit (put_to unit _block _area.now (reader_holds self.old unit.number)) (reader_holds self.old) (reader_holds self.new) result }
        ensures time { reader_tells self.new ≡ reader_tells self.old }
    {
        Err(self.refusal(unit))
    }

    #[tactic(auto, using(crate::proofs::Reading::no_shift))]
    fn shift(&mut self, unit: Unit, _by: Word) -> Result<(), UnitFault>
        ensures units { After unit (shift_of unit _by (reader_holds self.old unit.number)) (reader_holds self.old) (reader_holds self.new) result }
        ensures time { reader_tells self.new ≡ reader_tells self.old }
    {
        Err(self.refusal(unit))
    }

    ghost bounded = { λ r q. r.fits };

    ghost sound = { reader_sound };
}
