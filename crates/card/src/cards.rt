ghost use Rattle.std.specs.Prelude.{◌≡◌, ◌*◌, ◌<◌, ◌≤◌, length, slice_index_or, is_some, IfSome, Some};
ghost use Rattle.std.specs.Option.{option_map};
ghost use Rattle.std.specs.List.{AllByRecursion};
ghost use Rattle.card.specs.Lines.{trimmed};
ghost use Rattle.card.specs.Text.{text_words, word_text, words_text, padded, all_coded, sound, card_of, Plain};

use crate::words::{text_of, word_of};
use std::array;
use word::{Sign, Word};

// The sixteen words of a card, blanks being added to its end; none where it is damaged:
// it has over 80 bytes, or one without a code.
pub fn read_card(text: &[u8]) -> Option<[Word; 16]>
    ensures words { result ≡ card_of text.now }
    ensures read { is_some result ≡ sound text.now }
    ensures text { IfSome result (λ ws. words_text ws ≡ padded text.now) }
    ensures same { IfSome result (λ ws. trimmed (words_text ws) ≡ trimmed text.now) }
{
    if text.len() > 80 {
        return None;
    }
    words_in(&columns(text))
}

// The text that sixteen words punch.
#[tactic(auto, using(crate::proofs::Blocks::card_again))]
pub fn card_text(words: &[Word; 16]) -> [u8; 80]
    ensures text { result ≡ words_text words.now }
    ensures back { AllByRecursion Plain words.now → card_of result ≡ Some words.now }
{
    punched::<16, 80>(words)
}

// The text that twenty-four words print.
pub fn line_text(words: &[Word; 24]) -> [u8; 120]
    ensures { result ≡ words_text words.now }
{
    punched::<24, 120>(words)
}

// A card read in and punched out again; none where it is damaged.
pub fn reproduce(text: &[u8]) -> Option<[u8; 80]>
    ensures text { result ≡ option_map words_text (card_of text.now) }
    ensures read { is_some result ≡ sound text.now }
    ensures columns { IfSome result (λ out. out ≡ padded text.now) }
    ensures same { IfSome result (λ out. trimmed out ≡ trimmed text.now) }
{
    let words = read_card(text)?;
    Some(card_text(&words))
}

// The 80 columns of a card: its text, and blanks.
fn columns(text: &[u8]) -> [u8; 80]
    requires { length text.now ≤ 80 }
    ensures text { result ≡ padded text.now }
    ensures coded { all_coded result ≡ all_coded text.now }
    ensures same { trimmed result ≡ trimmed text.now }
{
    let mut columns = [b' '; 80];
    columns[..text.len()].copy_from_slice(text);
    columns
}

// The words of 80 columns, five to a word; none where one has no code.
fn words_in(columns: &[u8; 80]) -> Option<[Word; 16]>
    ensures words { result ≡ text_words 16 columns.now }
    ensures coded { is_some result ≡ all_coded columns.now }
    ensures text { IfSome result (λ ws. words_text ws ≡ columns.now) }
{
    let (fives, _) = columns.as_chunks();
    // There are sixteen fives, so this `?` never ends the function.
    let fives: &[[u8; 5]; 16] = fives.first_chunk()?;
    // Written by place: `try_map` would first make an iterator over a copy of the fives, and another over the words.
    let mut words = [Word::wrapping(Sign::Plus, 0); 16];
    for (i, five) in fives.iter().enumerate() {
        words[i] = word_of(*five)?;
    }
    Some(words)
}

// The text of words in a row, five characters to a word.
fn punched<const W: usize, const N: usize>(words: &[Word; W]) -> [u8; N]
    requires { N ≡ 5 * W }
    ensures { result ≡ words_text words.now }
{
    let fives: [[u8; 5]; W] = array::from_fn(
        |i| -> [u8; 5]
            requires { i < W }
            ensures { (d : Word) → result ≡ word_text (slice_index_or words.entry.now i d) }
        { text_of(words[i]) },
    );
    let mut text = [b' '; N];
    text.copy_from_slice(fives.as_flattened());
    text
}
