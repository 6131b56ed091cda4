ghost use Rattle.std.specs.Prelude.{◌≡◌, ◌<◌, MatchResult};
ghost use Rattle.word.specs.Word.{word_of};

use crate::index::{BeyondIndex, Index};
use crate::word::Word;

impl TryFrom<Word> for Index {
    type Error = BeyondIndex;

    ghost try_from_gives = { λ word r. MatchResult r (λ index. (index.sign ≡ word.sign) × (index.magnitude ≡ word.magnitude)) (λ _. 4095 < word.magnitude) };

    // The word as an index; an error where its magnitude is beyond 4,095.
    fn try_from(word: Word) -> Result<Index, BeyondIndex> {
        if word.magnitude > 4095 {
            return Err(BeyondIndex);
        }
        Ok(Index {
            sign: word.sign,
            magnitude: word.magnitude as u16,
        })
    }
}

impl From<Index> for Word {
    ghost from_gives = { λ index word. word ≡ word_of index.sign index.magnitude };

    // The index as a word.
    fn from(index: Index) -> Word
        ensures word { result ≡ word_of index.sign index.magnitude }
        ensures sign { result.sign ≡ index.sign }
        ensures magnitude { result.magnitude ≡ index.magnitude }
    {
        Word::wrapping(index.sign, u64::from(index.magnitude))
    }
}
