ghost use Rattle.std.specs.Prelude.{◌≡◌, ℕ, ◌+◌, ◌-◌, ◌%◌, ◌≤◌, List, [], ◌∷◌, ◌++◌, length, take, replicate, OnOk};
ghost use Rattle.card.specs.Lines.{trimmed};
ghost use Rattle.lines.specs.Lines.{two_digits, four_digits, sign_text, word_digits, front, listed, symbol_line, memory_line};

use card::{spelled, trim};
use std::alloc::AllocError;
use word::{Sign, Word};

// A location by four digits. Digits are made by hand in these texts: `{:04}` writes to a writer,
// whose `Err` an array cannot have.
#[tactic(auto, unfolding(crate::specs::Lines::four_digits))]
pub fn location_text(location: u16) -> [u8; 4]
    ensures { result ≡ four_digits location }
{
    [
        last_digit(location / 1000),
        last_digit(location / 100),
        last_digit(location / 10),
        last_digit(location),
    ]
}

// A word: its sign, and its bytes by two digits each.
pub fn word_text(word: Word) -> [u8; 16]
    ensures { result ≡ word_digits word }
{
    let mut text = [sign_text(word.sign); 16];
    text[1..].copy_from_slice(word.to_bytes().map(byte_text).as_flattened());
    text
}

// One line of a listing is added to the text; want of memory may leave a part of it after what was there.
pub fn list_line(out: &mut Vec<u8>, at: Option<(u16, Word)>, card: &[u8]) -> Result<(), AllocError>
    ensures line { OnOk result (out.new.items ≡ out.old.items ++ listed at card.now) }
    ensures kept { take (length out.old.items) out.new.items ≡ out.old.items }
{
    let front = front_columns(at);
    let card = trim(card);
    add_line(out, trimmed_front(&front, card), card)
}

// The line of a symbol, given by the ten codes of its name. Columns are named by number: the
// line's definition puts them by number.
pub fn symbol_text(name: [u8; 10], word: Word) -> [u8; 30]
    ensures { result ≡ symbol_line name word }
{
    let mut line = [b' '; 30];
    line[0] = b'S';
    line[29] = b'\n';
    line[2..12].copy_from_slice(&spelled(name));
    line[13..29].copy_from_slice(&word_text(word));
    line
}

// The line of a word in memory.
pub fn memory_text(location: u16, word: Word) -> [u8; 22]
    ensures { result ≡ memory_line location word }
{
    numbered(location, word, b'\n')
}

// The last digit of a number.
fn last_digit(n: u16) -> u8
    ensures { result ≡ 48 + n % 10 }
{
    (48 + n % 10) as u8
}

// A sign by its character.
fn sign_text(sign: Sign) -> u8
    ensures { result ≡ sign_text sign }
{
    match sign {
        Sign::Plus => b'+',
        Sign::Minus => b'-',
    }
}

// A byte of a word: a blank, and two digits.
fn byte_text(byte: u8) -> [u8; 3]
    ensures { result ≡ 32 ∷ two_digits byte }
{
    [b' ', b'0' + byte / 10, b'0' + byte % 10]
}

// The columns before a card: location and word, or blanks.
fn front_columns(at: Option<(u16, Word)>) -> [u8; 23]
    ensures { result ≡ front at }
{
    match at {
        Some((location, word)) => numbered(location, word, b' '),
        None => [b' '; 23],
    }
}

// A location and a word, and `end` in each column after them. Columns are named by number, as in
// the line's definition.
fn numbered<const N: usize>(location: u16, word: Word, end: u8) -> [u8; N]
    requires { 21 ≤ N }
    ensures { result ≡ four_digits location ++ (32 ∷ (word_digits word ++ replicate (N - 21) end)) }
{
    let mut line = [end; N];
    let columns = &mut line[..];
    columns[..4].copy_from_slice(&location_text(location));
    columns[4] = b' ';
    columns[5..21].copy_from_slice(&word_text(word));
    line
}

// The front of a line; its blanks at the end go too where the card is empty.
fn trimmed_front<'a>(front: &'a [u8], card: &[u8]) -> &'a [u8]
    ensures { (xs : List ℕ) → card.now ≡ trimmed xs → result.now ++ card.now ≡ trimmed (front.now ++ xs) }
{
    if card.is_empty() { trim(front) } else { front }
}

// Two texts and the end of the line.
fn add_line(out: &mut Vec<u8>, front: &[u8], card: &[u8]) -> Result<(), AllocError>
    ensures line { OnOk result (out.new.items ≡ out.old.items ++ ((front.now ++ card.now) ++ (10 ∷ []))) }
    ensures kept { take (length out.old.items) out.new.items ≡ out.old.items }
{
    out.extend_from_slice(front)?;
    out.extend_from_slice(card)?;
    out.push(b'\n')?;
    Ok(())
}
