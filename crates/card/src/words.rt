ghost use Rattle.std.specs.Prelude.{◌≡◌, ◌-◌, ◌<◌, ◌++◌, true, map, length, replicate, slice_index, IfSome, Some};
ghost use Rattle.std.specs.List.{AllByRecursion};
ghost use Rattle.word.specs.Bytes.{are_bytes};
ghost use Rattle.card.specs.Table.{character_of};
ghost use Rattle.card.specs.Text.{text_codes, codes_in, text_word, word_text, Plain};

use crate::table::{character, code};
use std::array;
use word::{Sign, Word};

// The plus word of five characters; none where one has no code.
#[tactic(auto, using(crate::proofs::Codes::codes_full))]
pub fn word_of(text: [u8; 5]) -> Option<Word>
    ensures word { result ≡ text_word text }
    ensures back { IfSome result (λ w. word_text w ≡ text) }
{
    let bytes = codes_of(&text)?;
    Word::from_bytes(Sign::Plus, bytes)
}

// The characters of a word's bytes; a byte above 55 is a blank, and the sign is left out.
pub fn text_of(word: Word) -> [u8; 5]
    ensures text { result ≡ word_text word }
    ensures back { Plain word → text_word result ≡ Some word }
{
    spelled(word.to_bytes())
}

// The codes of N characters at most, and zeros after them; none where one has no code, or there
// are more than N.
pub fn codes_of<const N: usize>(text: &[u8]) -> Option<[u8; N]>
    ensures value { result ≡ codes_in N text.now }
    ensures bytes { IfSome result (λ cs. are_bytes cs ≡ true) }
    ensures back { IfSome result (λ cs. map character_of cs ≡ text.now ++ replicate (N - length text.now) 32) }
{
    if text.len() > N {
        return None;
    }
    let mut codes = [0; N];
    // Written by place: what `codes.iter_mut().zip(text)` has written is not known after the loop,
    // and `array::try_from_fn` and `try_map` ask that N codes in an iterator fit in memory.
    for (i, b) in text.iter().enumerate() {
        codes[i] = code(*b)?;
    }
    Some(codes)
}

// The characters of N codes; a code above 55 is a blank.
pub fn spelled<const N: usize>(codes: [u8; N]) -> [u8; N]
    ensures text { result ≡ map character_of codes.entry }
    ensures back { AllByRecursion (λ c. c < 56) codes.entry → text_codes result ≡ Some codes.entry }
{
    array::from_fn(
        |i| -> u8
            requires { i < N }
            ensures { result ≡ character_of (slice_index codes i) }
        { character(codes[i]) },
    )
}
