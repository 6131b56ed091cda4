ghost use Rattle.std.specs.Prelude.{◌≡◌, ◌≤◌, ◌<◌, ◌⊎◌, ◌++◌, replicate, ⊤, [], map, MatchOption, slice_get, None, Some, Err};
ghost use Rattle.rack.specs.declared.kind.Kind.TheVariants.{Punch as punch_kind};
ghost use Rattle.card.specs.Text.{text_words, words_text};
ghost use Rattle.paper.specs.Tray.{device_number, device_kind, device_size, lines_held, shown};
ghost use Rattle.paper.specs.TrayRack.{lines_of, tray_holds, tray_tells};
ghost use Rattle.paper.specs.Reader.{alone, nowhere};
ghost use Rattle.rack.specs.Transfers.{Leaves, After, block_in, if_ring, on_unit, printable, put_to, received, shift_of, take_from, write_text};
ghost use Rattle.rack.specs.Units.{columns, text_in};
ghost use Rattle.rack.specs.declared.request.Request.{Request};

use crate::device::Device;
use crate::lines::Lines;
use crate::tray::Tray;
use card::{card_text, line_text};
use rack::{Rack, Request, Ring, Standing, Unit, UnitFault, block_of};
use std::alloc::Global;
use word::Word;

impl Tray {
    // An empty tray of a device, with memory for as many lines as its capacity; absent where the capacity is over
    // 1,000, or memory is wanting. It tells the same time for all transfers.
    pub fn new(heap: Global, device: Device, capacity: u16, ring: Ring, time: u16) -> Tray
        ensures large { 1000 < capacity → tray_holds result ≡ nowhere }
        ensures empty { (tray_holds result ≡ nowhere) ⊎ (tray_holds result ≡ alone (device_number device) (Some (lines_held device capacity [] ring))) }
        ensures time { (q : Request) → tray_tells result q ≡ time }
    {
        Tray {
            lines: Lines::new(heap, device, capacity, ring),
            time,
        }
    }

    // The lines, where the unit is the tray's own and present.
    fn at(&self, unit: Unit) -> Option<&Lines>
        ensures { MatchOption result (tray_holds self.now unit.number ≡ None)
            (λ l. (self.now.lines ≡ Some l.now) × (unit.number ≡ device_number l.now.device)) }
    {
        let lines = self.lines.as_ref()?;
        if lines.device.number() == unit.number {
            Some(lines)
        } else {
            None
        }
    }

    // Why the unit takes neither a Take nor a Shift.
    fn refusal(&self, unit: Unit) -> UnitFault
        ensures { Err result ≡ on_unit unit (λ k h. Err (UnitFault.NotAllowed unit)) (tray_holds self.now unit.number) }
    {
        match self.at(unit) {
            Some(_) => UnitFault::NotAllowed(unit),
            None => UnitFault::Absent(unit),
        }
    }
}

impl Lines {
    // No lines, and memory for as many as the capacity.
    fn new(heap: Global, device: Device, capacity: u16, ring: Ring) -> Option<Lines>
        ensures { MatchOption result ⊤ (λ l. (capacity ≤ 1000) × (lines_of l ≡ lines_held device capacity [] ring) × (l.device ≡ device)) }
    {
        if capacity > 1000 {
            return None;
        }
        let text = Vec::with_capacity(heap, usize::from(capacity)).ok()?;
        Some(Lines {
            device,
            text,
            capacity,
            ring,
        })
    }

    // The text of a block; blanks where there is none.
    #[tactic(auto, using(crate::proofs::Writing::line_shown))]
    fn line(&self, block: u16) -> [u8; 120]
        ensures { result ≡ columns (text_in (slice_get (lines_of self.now).blocks block)) }
    {
        self.text
            .get(usize::from(block))
            .copied()
            .unwrap_or([b' '; 120])
    }

    // The block at the front of an area is written as one more line.
    fn write(&mut self, unit: Unit, area: &[Word]) -> Result<(), UnitFault>
        ensures lines { Leaves (if_ring unit self.old.ring (write_text unit (block_in area.now (device_kind self.old.device)) (lines_of self.old)))
            (lines_of self.old) (lines_of self.new) result }
        ensures device { self.new.device ≡ self.old.device }
    {
        if self.ring == Ring::Out {
            return Err(UnitFault::NotAllowed(unit));
        }
        if self.text.len() == usize::from(self.capacity) {
            return Err(UnitFault::NoBlock(unit, self.capacity));
        }
        self.text.push_reserved(line_of(self.device, area));
        Ok(())
    }
}

impl Rack for Tray {
    ghost use Rattle.paper.specs.Lawful.{tray_sound};

    ghost holds = { tray_holds };

    ghost tells = { tray_tells };

    fn ask(&self, unit: Unit) -> Option<Standing> {
        let lines = self.at(unit)?;
        Some(Standing {
            capacity: lines.capacity,
            blocks: lines.text.len() as u16,
            position: 0,
            ring: lines.ring,
        })
    }

    #[tactic(auto, unfolding(rack::specs::Units::columns))]
    fn text(&self, unit: Unit, block: u16) -> [u8; 120] {
        match self.at(unit) {
            Some(lines) => lines.line(block),
            None => [b' '; 120],
        }
    }

    fn time(&mut self, _request: Request) -> u16
        ensures told { result ≡ tray_tells self.old _request }
        ensures same { self.new ≡ self.old }
    {
        self.time
    }

    #[tactic(auto, using(crate::proofs::Writing::no_take))]
    fn take(&mut self, unit: Unit, _block: u16, _area: &mut [Word]) -> Result<(), UnitFault>
        ensures units { After unit (take_from unit _block (tray_holds self.old unit.number)) (tray_holds self.old) (tray_holds self.new) result }
        ensures area { _area.new ≡ received (take_from unit _block (tray_holds self.old unit.number)) _area.old }
        // No transfer alters the time.
        ensures time { tray_tells self.new ≡ tray_tells self.old }
    {
        Err(self.refusal(unit))
    }

    fn put(&mut self, unit: Unit, _block: u16, area: &[Word]) -> Result<(), UnitFault>
        ensures units { After unit (put_to unit _block area.now (tray_holds self.old unit.number)) (tray_holds self.old) (tray_holds self.new) result }
        ensures time { tray_tells self.new ≡ tray_tells self.old }
    {
        let Some(lines) = &mut self.lines else {
            return Err(UnitFault::Absent(unit));
        };
        if lines.device.number() != unit.number {
            return Err(UnitFault::Absent(unit));
        }
        lines.write(unit, area)
    }

    #[tactic(auto, using(crate::proofs::Writing::no_shift))]
    fn shift(&mut self, unit: Unit, _by: Word) -> Result<(), UnitFault>
        ensures units { After unit (shift_of unit _by (tray_holds self.old unit.number)) (tray_holds self.old) (tray_holds self.new) result }
        ensures time { tray_tells self.new ≡ tray_tells self.old }
    {
        Err(self.refusal(unit))
    }

    ghost bounded = { λ t q. t.fits };

    ghost sound = { tray_sound };
}

// The line of the block that an area gives.
fn line_of(device: Device, area: &[Word]) -> [u8; 120]
    ensures block { text_words (device_size device) result ≡ Some (map printable (block_in area.now (device_kind device))) }
    ensures shown { shown device result ≡ result }
{
    match device {
        Device::Punch => card_line(area),
        Device::Printer => line_text(&block_of(area)),
    }
}

// The line of a card.
#[tactic(auto, unfolding(rack::specs::Transfers::block_in))]
fn card_line(area: &[Word]) -> [u8; 120]
    ensures { result ≡ words_text (block_in area.now punch_kind) ++ replicate 40 32 }
{
    let mut line = [b' '; 120];
    line[..80].copy_from_slice(&card_text(&block_of(area)));
    line
}
