ghost use Rattle.std.specs.Prelude.{◌≡◌};

use std::alloc::AllocError;
use thiserror::Error;
use wsrep_base::ReadFault;

/// A place in the bytes of a write set, or of what has parts of one.
pub type Cursor<'a> = wsrep_base::Cursor<'a, WsFault>;

/// Why bytes are no write set: the first fault from left to right. A number is the place of the
/// first byte of the field at fault, unless it is said otherwise.
#[derive(Clone, Copy, Debug, PartialEq, Eq, Error)]
pub enum WsFault {
    /// Fewer bytes are left than the field needs.
    #[error("byte {0}: the field is cut short")]
    Short(usize),
    /// The first byte, which is not 1.
    #[error("version {0} is not known")]
    BadVersion(u8),
    /// The flags break a rule that the header fields alone show, or a rollback has a key or a
    /// change.
    #[error("the flags break a rule")]
    BadFlags,
    /// A number of keys or changes is above its limit.
    #[error("byte {0}: too many keys or changes")]
    TooMany(usize),
    /// A number of parts, or a name in a key, is outside its form.
    #[error("byte {0}: no key")]
    BadKey(usize),
    /// A kind is outside 1 to 3.
    #[error("byte {0}: no kind of key")]
    BadKind(usize),
    /// A key or a column is not above the one before it.
    #[error("byte {0}: out of order")]
    NotCanonical(usize),
    /// A tag, a name, a count or a column of a change is outside its form.
    #[error("byte {0}: no change")]
    BadChange(usize),
    /// Bytes follow the last change.
    #[error("byte {0}: bytes follow the last change")]
    Trailing(usize),
    /// The change of this index, counted from 0, is the first that no key covers.
    #[error("change {0} is covered by no key")]
    Uncovered(usize),
    /// Memory ran out.
    #[error("memory ran out")]
    NoMemory,
}

impl ReadFault for WsFault {
    ghost use Rattle.write_set.specs.declared.fault.WsFault.TheVariants.{Short};

    ghost short = { Short };

    fn short(at: usize) -> WsFault {
        WsFault::Short(at)
    }
}

impl From<AllocError> for WsFault {
    ghost use Rattle.write_set.specs.declared.fault.WsFault.TheVariants.{NoMemory};

    ghost from_gives = { λ _ e. e ≡ NoMemory };

    fn from(_e: AllocError) -> WsFault {
        WsFault::NoMemory
    }
}
