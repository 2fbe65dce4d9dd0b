// Want of memory as a refusal. There are two impls, since std has two errors for it, and each trait of both
// is one of other errors too.
ghost use Rattle.std.specs.Prelude.{◌≡◌};
ghost use Rattle.event.specs.declared.Refusal.TheVariants.{OutOfMemory};

use crate::Refusal;
use std::alloc::{AllocError, AllocFailed};

impl From<AllocError> for Refusal {
    ghost from_gives = { λ _ r. r ≡ OutOfMemory };

    fn from(_e: AllocError) -> Refusal {
        Refusal::OutOfMemory
    }
}

impl<T: Drop> From<AllocFailed<T>> for Refusal {
    ghost from_gives = { λ _ r. r ≡ OutOfMemory };

    fn from(_e: AllocFailed<T>) -> Refusal {
        Self::OutOfMemory
    }
}
