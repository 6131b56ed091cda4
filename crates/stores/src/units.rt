ghost use Rattle.std.specs.Prelude.{◌≡◌, ◌≢◌, ℕ, OnOk};
ghost use Rattle.stores.specs.Contents.{holding_in, Makes};
ghost use Rattle.stores.specs.Stores.{holds_of, times_of};

use crate::contents::{Contents, NotMade};
use crate::disk::Disk;
use crate::place::Place;
use crate::stores::Stores;
use crate::tape::Tape;
use rack::{Rack, Request, Standing, Unit, UnitFault};
use std::alloc::Global;
use word::Word;

impl Stores {
    // All units are absent.
    pub fn new() -> Stores
        ensures { (u : ℕ) → holds_of result u ≡ None }
    {
        Stores {
            tapes: [const { None }; 8],
            disks: [const { None }; 8],
        }
    }

    // Makes a tape or a disk with some contents, in place of the one that was there. It is absent
    // where the rules do not allow the contents, or memory is wanting.
    pub fn install(
        &mut self,
        heap: Global,
        unit: Unit,
        contents: Contents<'_>,
    ) -> Result<(), NotMade>
        ensures units { Makes unit.number (holding_in contents.entry) (holds_of self.old) (holds_of self.new) result }
        ensures time { OnOk result (times_of self.new unit.number ≡ contents.entry.time) }
        ensures times { (u : ℕ) → u ≢ unit.number → times_of self.new u ≡ times_of self.old u }
    {
        match Place::of(unit) {
            Some(Place::Tape(i)) => {
                self.tapes[i] = None;
                self.tapes[i] = Some(Tape::new(heap, contents)?);
                Ok(())
            }
            Some(Place::Disk(i)) => {
                self.disks[i] = None;
                self.disks[i] = Some(Disk::new(heap, contents)?);
                Ok(())
            }
            None => Err(NotMade::NoStore),
        }
    }
}

impl Rack for Stores {
    ghost use Rattle.std.specs.Prelude.{◌≡◌};
    ghost use Rattle.rack.specs.Transfers.{After, received, take_from, put_to, shift_of};
    ghost use Rattle.stores.specs.Stores.{holds_of, times_of, tells_of};
    ghost use Rattle.stores.specs.Sound.{stores_bounded, stores_sound};

    ghost holds = { holds_of };

    ghost tells = { tells_of };

    fn ask(&self, unit: Unit) -> Option<Standing> {
        match Place::of(unit) {
            Some(Place::Tape(i)) => self.tapes[i].as_ref().map(|tape| tape.standing()),
            Some(Place::Disk(i)) => self.disks[i].as_ref().map(|disk| disk.standing()),
            None => None,
        }
    }

    fn text(&self, _unit: Unit, _block: u16) -> [u8; 120] {
        [b' '; 120]
    }

    fn time(&mut self, request: Request) -> u16
        ensures told { result ≡ tells_of self.old request }
        ensures same { self.new ≡ self.old }
    {
        match Place::of(request.unit) {
            Some(Place::Tape(i)) => self.tapes[i].as_ref().map_or(0, |tape| tape.time),
            Some(Place::Disk(i)) => self.disks[i].as_ref().map_or(0, |disk| disk.time),
            None => 0,
        }
    }

    fn take(&mut self, unit: Unit, block: u16, area: &mut [Word]) -> Result<(), UnitFault>
        ensures units { After unit (take_from unit block (holds_of self.old unit.number)) (holds_of self.old) (holds_of self.new) result }
        ensures area { area.new ≡ received (take_from unit block (holds_of self.old unit.number)) area.old }
        // No transfer alters a time.
        ensures times { times_of self.new ≡ times_of self.old }
    {
        match Place::of(unit) {
            Some(Place::Tape(i)) => match &mut self.tapes[i] {
                Some(tape) => tape.take(unit, area),
                None => Err(UnitFault::Absent(unit)),
            },
            Some(Place::Disk(i)) => match &self.disks[i] {
                Some(disk) => disk.take(unit, block, area),
                None => Err(UnitFault::Absent(unit)),
            },
            None => Err(UnitFault::Absent(unit)),
        }
    }

    fn put(&mut self, unit: Unit, block: u16, area: &[Word]) -> Result<(), UnitFault>
        ensures units { After unit (put_to unit block area.now (holds_of self.old unit.number)) (holds_of self.old) (holds_of self.new) result }
        // No transfer alters a time.
        ensures times { times_of self.new ≡ times_of self.old }
    {
        match Place::of(unit) {
            Some(Place::Tape(i)) => match &mut self.tapes[i] {
                Some(tape) => tape.put(unit, area),
                None => Err(UnitFault::Absent(unit)),
            },
            Some(Place::Disk(i)) => match &mut self.disks[i] {
                Some(disk) => disk.put(unit, block, area),
                None => Err(UnitFault::Absent(unit)),
            },
            None => Err(UnitFault::Absent(unit)),
        }
    }

    fn shift(&mut self, unit: Unit, by: Word) -> Result<(), UnitFault>
        ensures units { After unit (shift_of unit by (holds_of self.old unit.number)) (holds_of self.old) (holds_of self.new) result }
        // No transfer alters a time.
        ensures times { times_of self.new ≡ times_of self.old }
    {
        match Place::of(unit) {
            Some(Place::Tape(i)) => match &mut self.tapes[i] {
                Some(tape) => {
                    tape.shift(by);
                    Ok(())
                }
                None => Err(UnitFault::Absent(unit)),
            },
            Some(Place::Disk(i)) => match &self.disks[i] {
                Some(disk) => disk.shift(unit, by),
                None => Err(UnitFault::Absent(unit)),
            },
            None => Err(UnitFault::Absent(unit)),
        }
    }

    ghost bounded = { stores_bounded };

    ghost sound = { stores_sound };
}
