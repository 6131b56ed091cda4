ghost use Rattle.std.specs.Prelude.{◌≡◌, ℕ, [], Some, IfOk, OnOk};
ghost use Rattle.card.specs.Lines.{cards_of};
ghost use Rattle.paper.specs.Reader.{alone};
ghost use Rattle.paper.specs.Tray.{device_number, lines_held};
ghost use Rattle.paper.specs.TrayRack.{tray_holds};
ghost use Rattle.rack.specs.declared.standing.Ring.TheVariants.{In};
ghost use Rattle.rack.specs.Transfers.{updated};
ghost use Rattle.stores.specs.Contents.{holding_in};
ghost use Rattle.stores.specs.Stores.{holds_of};
ghost use Rattle.rack.specs.declared.request.Request.{Request};
ghost use Rattle.job_rack.specs.SetTimes.{set_times};
ghost use Rattle.job_rack.specs.Settings.{time_set};
ghost use Rattle.job_rack.specs.Units.{job_units, store_units};

use crate::settings::Settings;
use crate::timed::Timed;
use crate::times::JobTimes;
use paper::{CardReader, Device, Tray, first_cards};
use rack::{Rack, Ring, Unit};
use racks::SideBySide;
use std::alloc::{AllocError, Global};
use stores::{Block, Contents, Stores};

// The units of a job: stores, card reader, punch and printer side by side.
type Units<'t> = SideBySide<Stores, SideBySide<CardReader<'t>, SideBySide<Tray, Tray>>>;

// The units of a job, with the times of a job.
pub type JobRack<'t> = Timed<JobTimes, Units<'t>>;

// The units of a job, with times that are set.
pub type RoomRack<'t> = Timed<Settings, Units<'t>>;

// The units of a job that reads the first 200 cards of a text.
pub fn job_rack<'t>(heap: Global, cards: &'t [u8]) -> Result<JobRack<'t>, AllocError>
    ensures { IfOk result (λ r. ⟦<JobRack<'t> as Rack>⟧.holds r ≡ job_units (cards_of cards.now)) }
{
    Ok(Timed {
        times: JobTimes,
        rack: units(heap, cards)?,
    })
}

// The same with times that are set.
pub fn room_rack<'t>(
    heap: Global,
    cards: &'t [u8],
    times: Settings,
) -> Result<RoomRack<'t>, AllocError>
    ensures holds { IfOk result (λ r. ⟦<RoomRack<'t> as Rack>⟧.holds r ≡ job_units (cards_of cards.now)) }
    ensures times { IfOk result (λ r. (q : Request) → ⟦<RoomRack<'t> as Rack>⟧.tells r q ≡ time_set (set_times times) q.unit.number) }
{
    Ok(Timed {
        times,
        rack: units(heap, cards)?,
    })
}

// The units, with the reader before the first of the cards.
fn units<'t>(heap: Global, cards: &'t [u8]) -> Result<Units<'t>, AllocError>
    ensures { IfOk result (λ r. ⟦<Units<'t> as Rack>⟧.holds r ≡ job_units (cards_of cards.now)) }
{
    let (data, _) = first_cards(cards, 200);
    let stores = job_stores(heap)?;
    let reader = CardReader::new(data, 200, 80);
    let punch = job_tray(heap, Device::Punch, 100)?;
    let printer = job_tray(heap, Device::Printer, 60)?;
    let trays = SideBySide::new(punch, 18, printer);
    let paper = SideBySide::new(reader, 17, trays);
    Ok(SideBySide::new(stores, 16, paper))
}

// An empty tray.
fn job_tray(heap: Global, device: Device, time: u16) -> Result<Tray, AllocError>
    ensures { IfOk result (λ t. tray_holds t ≡ alone (device_number device) (Some (lines_held device 200 [] In))) }
{
    let tray = Tray::new(heap, device, 200, Ring::In, time);
    let unit = Unit {
        number: device.number(),
    };
    match tray.ask(unit) {
        Some(_) => Ok(tray),
        None => Err(AllocError),
    }
}

// The tapes and the disk.
fn job_stores(heap: Global) -> Result<Stores, AllocError>
    ensures { IfOk result (λ s. (u : ℕ) → holds_of s u ≡ store_units u) }
{
    let tape = Contents {
        capacity: 20,
        blocks: &[],
        position: 0,
        ring: Ring::In,
        time: 20,
    };
    let zeros = [Some(Block::of(&[])); 20];
    let disk = Contents {
        blocks: &zeros,
        time: 30,
        ..tape
    };
    let mut stores = Stores::new();
    install(&mut stores, heap, 8, disk)?;
    install(&mut stores, heap, 1, tape)?;
    install(&mut stores, heap, 0, tape)?;
    Ok(stores)
}

// One unit more.
fn install(
    stores: &mut Stores,
    heap: Global,
    number: u8,
    contents: Contents<'_>,
) -> Result<(), AllocError>
    ensures { OnOk result (holds_of stores.new ≡ updated (holds_of stores.old) number (Some (holding_in contents.entry))) }
{
    stores
        .install(heap, Unit { number }, contents)
        .map_err(|_| AllocError)
}
