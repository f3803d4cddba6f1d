ghost use Rattle.std.specs.Prelude.{◌≡◌};

use std::alloc::AllocError;
use thiserror::Error;

/// Why events are not copied.
#[derive(Clone, Copy, Debug, PartialEq, Eq, Error)]
pub enum CopyFault {
    /// The ring does not hold the event. The number is that of the oldest one that it holds; None
    /// where it holds none.
    #[error("the event is not held")]
    NotHeld(Option<u64>),
    /// Memory ran out.
    #[error("memory ran out")]
    NoMemory,
}

impl From<AllocError> for CopyFault {
    ghost use Rattle.gcache_ring.specs.declared.fault.CopyFault.TheVariants.{NoMemory};

    ghost from_gives = { λ _ e. e ≡ NoMemory };

    fn from(_e: AllocError) -> CopyFault {
        CopyFault::NoMemory
    }
}
