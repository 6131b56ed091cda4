ghost use Rattle.std.specs.Prelude.{◌≡◌, ◌≤◌, [], length, MatchOption};
ghost use Rattle.card.specs.Lines.{trimmed, up_to, cards_of, Split};

// The text without the blanks at its end.
#[tactic(auto, using(crate::proofs::Blanks::trim_less, crate::proofs::Blanks::trim_done))]
pub fn trim(text: &[u8]) -> &[u8]
    ensures { result.now ≡ trimmed text.now }
{
    let mut rest = text;
    while let [front @ .., b' '] = rest {
        rest = front;
    }
    rest
}

// The first card, without its byte 10, and the text of the others; none at the empty text.
pub fn first_card(text: &[u8]) -> Option<(&[u8], &[u8])>
    ensures { MatchOption result (cards_of text.now ≡ []) (λ p. Split text.now p.0.now p.1.now) }
{
    if text.is_empty() {
        return None;
    }
    let end = until(text, b'\n');
    Some((&text[..end], text.get(end + 1..).unwrap_or(&[])))
}

// How many bytes stand before the first that is `stop`, or all where none is.
pub fn until(text: &[u8], stop: u8) -> usize
    ensures value { result ≡ up_to stop text.now }
    ensures bound { result ≤ length text.now }
{
    text.iter().position(|b| *b == stop).unwrap_or(text.len())
}
