use crate::times::Times;
use anyhow::{Result, anyhow};
use paper::{CardReader, Device, Tray};
use rack::{Ring, Unit};
use racks::SideBySide;
use std::alloc::Global;
use stores::{Block, Contents, Stores};
use word::{Sign, Word};

// Tapes 0 and 1, disk 8, a reader of cards, a punch and a printer.
pub(crate) type Units<'t> = SideBySide<Stores, SideBySide<CardReader<'t>, SideBySide<Tray, Tray>>>;

// The units of a case. Punch and printer have room for two blocks.
pub(crate) fn units<'t>(heap: Global, cards: &'t [u8], times: Times) -> Result<Units<'t>> {
    let stores = stores(heap, times)?;
    let reader = CardReader::new(cards, 200, times.reader);
    let punch = Tray::new(heap, Device::Punch, 2, Ring::In, times.punch);
    let printer = Tray::new(heap, Device::Printer, 2, Ring::In, times.printer);
    let trays = SideBySide::new(punch, 18, printer);
    Ok(SideBySide::new(stores, 16, SideBySide::new(reader, 17, trays)))
}

// Tape 0 is empty; tape 1 has its ring out, and a block that begins with 7, and a damaged one; disk 8 has 20
// blocks of +0, of which block 3 is damaged.
fn stores(heap: Global, times: Times) -> Result<Stores> {
    let empty = Contents {
        capacity: 20,
        blocks: &[],
        position: 0,
        ring: Ring::In,
        time: times.tape,
    };
    let seven = Word::wrapping(Sign::Plus, 7);
    let sevens = [Some(Block::of(&[seven])), None];
    let written = Contents {
        blocks: &sevens,
        ring: Ring::Out,
        ..empty
    };
    let mut zeros = [Some(Block::of(&[])); 20];
    zeros[3] = None;
    let disk = Contents {
        blocks: &zeros,
        time: times.disk,
        ..empty
    };
    let mut stores = Stores::new();
    install(&mut stores, heap, 0, empty)?;
    install(&mut stores, heap, 1, written)?;
    install(&mut stores, heap, 8, disk)?;
    Ok(stores)
}

// One unit more.
fn install(stores: &mut Stores, heap: Global, number: u8, contents: Contents<'_>) -> Result<()> {
    stores
        .install(heap, Unit { number }, contents)
        .map_err(|_| anyhow!("unit {number} is not made"))
}
