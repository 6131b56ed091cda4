ghost use Rattle.std.specs.Prelude.{◌≡◌};
ghost use Rattle.listing.specs.declared.refusal.TextRefusal.TheVariants.{TooLong as LongText, NoMemory};

use crate::refusal::TextRefusal;
use lines::TooLong;
use std::alloc::AllocError;

// A derive would be no plainer than these two: contracts read `from_gives`, which none writes.

// Want of memory.
impl From<AllocError> for TextRefusal {
    ghost from_gives = { λ _ r. r ≡ NoMemory };

    fn from(_error: AllocError) -> TextRefusal {
        TextRefusal::NoMemory
    }
}

// A buffer too short.
impl From<TooLong> for TextRefusal {
    ghost from_gives = { λ e r. r ≡ LongText e };

    fn from(error: TooLong) -> TextRefusal {
        TextRefusal::TooLong(error)
    }
}
