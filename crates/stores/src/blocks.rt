ghost use Rattle.std.specs.Prelude.{◌≡◌, ◌<◌, ◌≤◌, suc, map, max, length, slice_get, vec_len, vec_capacity, IsOk, OnOk, MatchResult};
ghost use Rattle.rack.specs.Transfers.{block_in, read_block, written_at};
ghost use Rattle.rack.specs.Units.{Holding};
ghost use Rattle.rack.specs.declared.kind.Kind.TheVariants.{Tape};
ghost use Rattle.stores.specs.Blocks.{words_in};

use crate::block::Block;
use rack::{Unit, UnitFault, block_of};
use word::Word;

impl Block {
    // The block that an area gives.
    #[tactic(auto, unfolding(rack::specs::Transfers::block_in))]
    pub fn of(area: &[Word]) -> Block
        ensures { result.words ≡ block_in area.now Tape }
    {
        Block {
            words: block_of(area),
        }
    }
}

// The words of a block, or why there are none.
pub(crate) fn read(blocks: &[Option<Block>], at: u16, unit: Unit) -> Result<&[Word; 100], UnitFault>
    ensures words { (h : Holding) → MatchResult result
        (λ ws. read_block unit at h (slice_get (map words_in blocks.now) at) ≡ Ok (record { holding = h; block = ws.now }))
        (λ f. read_block unit at h (slice_get (map words_in blocks.now) at) ≡ Err f) }
    ensures within { OnOk result (at < length blocks.now) }
{
    match blocks.get(usize::from(at)) {
        None => Err(UnitFault::NoBlock(unit, at)),
        Some(None) => Err(UnitFault::Damaged(unit, at)),
        Some(Some(block)) => Ok(&block.words),
    }
}

// Writes a block in place of another, or after the last where there is room for one more.
#[tactic(auto, using(crate::proofs::Written::written))]
pub(crate) fn write(blocks: &mut Vec<Option<Block>>, at: u16, block: Block)
    requires next { at ≤ vec_len blocks.old }
    requires room { at < vec_capacity blocks.old }
    ensures items { map words_in blocks.new.items ≡ written_at at block.words (map words_in blocks.old.items) }
    ensures len { vec_len blocks.new ≡ max (vec_len blocks.old) (suc at) }
    ensures capacity { vec_capacity blocks.old ≤ vec_capacity blocks.new }
{
    let place = usize::from(at);
    if place < blocks.len() {
        blocks[place] = Some(block);
        return;
    }
    if blocks.push(Some(block)).is_err() {
        unreachable!();
    }
}
