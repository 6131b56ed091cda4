ghost use Rattle.std.specs.Prelude.{◌≡◌, ◌<◌, ◌≤◌, length, MatchOption};
ghost use Rattle.card.specs.Lines.{cards_of};
ghost use Rattle.paper.specs.Cards.{CutAfter};

use card::first_card;

// The text of the first cards, and the text of the others.
pub fn first_cards(text: &[u8], count: usize) -> (&[u8], &[u8])
    ensures { CutAfter count text.now result.0.now result.1.now }
{
    let mut left = count;
    for (i, b) in text.iter().enumerate() {
        if left == 0 {
            return text.split_at(i);
        }
        if *b == b'\n' {
            left -= 1;
        }
    }
    (text, &[])
}

// How many cards a text has, if they are no more than a limit.
pub(crate) fn count_cards(text: &[u8], limit: u16) -> Option<u16>
    ensures { MatchOption result (limit < length (cards_of text.now)) (λ n. (n ≡ length (cards_of text.now)) × (n ≤ limit)) }
{
    let mut rest = text;
    let mut count = 0;
    while let Some((_, next)) = first_card(rest) {
        if count == limit {
            return None;
        }
        count += 1;
        rest = next;
    }
    Some(count)
}
