ghost use Rattle.std.specs.Prelude.{◌≡◌, ◌++◌, take, replicate};
ghost use Rattle.word.specs.declared.sign.Sign.TheVariants.{Plus};
ghost use Rattle.word.specs.Word.{word_of};
ghost use Rattle.rack.specs.Transfers.{filled};

use word::{Sign, Word};

// Writes a block to the front of an area, as far as both go.
pub fn fill(area: &mut [Word], block: &[Word])
    ensures { area.new ≡ filled area.old block.now }
{
    let count = area.len().min(block.len());
    area[..count].copy_from_slice(&block[..count]);
}

// The block of K words that an area gives: its first words, and +0 for those that it has not.
pub fn block_of<const K: usize>(area: &[Word]) -> [Word; K]
    ensures { result ≡ take K (area.now ++ replicate K (word_of Plus 0)) }
{
    let mut block = [Word::wrapping(Sign::Plus, 0); K];
    let count = area.len().min(K);
    block[..count].copy_from_slice(&area[..count]);
    block
}
