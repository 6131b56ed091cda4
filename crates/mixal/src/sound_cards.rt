ghost use Rattle.std.specs.Prelude.{◌≡◌, false, MatchOption};
ghost use Rattle.card.specs.Text.{sound};
ghost use Rattle.mixal.specs.Deck.{loc_name};
ghost use Rattle.scan.specs.Columns.{address_of};

use crate::sound_card::SoundCard;
use card::reproduce;
use scan::{address_text, loc_text, name_codes};
use table::Name;

impl<'a> SoundCard<'a> {
    // The card of a text; none where it is damaged.
    pub(crate) fn read(text: &'a [u8]) -> Option<SoundCard<'a>>
        ensures { MatchOption result (sound text.now ≡ false) (λ k. k.text.now ≡ text.now) }
    {
        let columns = reproduce(text)?;
        Some(SoundCard { text, columns })
    }

    // The symbol in LOC, if there is one.
    pub(crate) fn loc(&self) -> Option<Name>
        ensures { result ≡ loc_name self.now.text.now }
    {
        let codes = name_codes(loc_text(self.text))?;
        Some(Name { codes })
    }

    // The text of ADDRESS.
    pub(crate) fn address(&self) -> &'a [u8]
        ensures { result.now ≡ address_of self.now.text.now }
    {
        address_text(self.text)
    }
}
