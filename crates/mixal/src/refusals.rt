ghost use Rattle.std.specs.Prelude.{◌≡◌};
ghost use Rattle.mixal.specs.Causes.{number_of};
ghost use Rattle.mixal.specs.declared.cause.Refusal.TheVariants.{NoMemory};

use crate::cause::{Cause, Refusal};
use std::alloc::AllocError;

impl Cause {
    // The number of the rejection. No `From`: a number alone does not say that it is one.
    pub fn number(self) -> u8
        ensures { result ≡ number_of self }
    {
        self as u8
    }
}

// Want of memory. A derive would be no plainer: contracts read `from_gives`, which none writes.
impl From<AllocError> for Refusal {
    ghost from_gives = { λ _ r. r ≡ NoMemory };

    fn from(_error: AllocError) -> Refusal {
        Refusal::NoMemory
    }
}
