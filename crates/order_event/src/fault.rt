ghost use Rattle.std.specs.Prelude.{◌≡◌};

use std::alloc::AllocError;
use thiserror::Error;
use wsrep_base::ReadFault;

/// A place in the bytes of an event.
pub(crate) type Cursor<'a> = wsrep_base::Cursor<'a, EventFault>;

/// Why bytes are no event: the first fault from left to right. A number is the place of the first
/// byte of the field at fault, counted from 0.
#[derive(Clone, Copy, Debug, PartialEq, Eq, Error)]
pub enum EventFault {
    /// Fewer bytes are left than the field needs.
    #[error("byte {0}: the field is cut short")]
    Short(usize),
    /// Bytes follow the event.
    #[error("byte {0}: bytes follow the event")]
    Trailing(usize),
    /// The first byte is none of 1, 2, 3.
    #[error("the tag is not known")]
    BadTag,
    /// A member is not above the one before it.
    #[error("byte {0}: out of order")]
    NotCanonical(usize),
    /// Memory ran out.
    #[error("memory ran out")]
    NoMemory,
}

impl ReadFault for EventFault {
    ghost use Rattle.order_event.specs.declared.fault.EventFault.TheVariants.{Short};

    ghost short = { Short };

    fn short(at: usize) -> EventFault {
        EventFault::Short(at)
    }
}

impl From<AllocError> for EventFault {
    ghost use Rattle.order_event.specs.declared.fault.EventFault.TheVariants.{NoMemory};

    ghost from_gives = { λ _ e. e ≡ NoMemory };

    fn from(_e: AllocError) -> EventFault {
        EventFault::NoMemory
    }
}
