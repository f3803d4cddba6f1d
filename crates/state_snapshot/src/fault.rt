ghost use Rattle.std.specs.Prelude.{◌≡◌, IsTrue};
ghost use Rattle.state_snapshot.specs.Reading.{fault_of, is_met};

use std::alloc::AllocError;
use thiserror::Error;
use write_set::WsFault;

/// Why bytes are no snapshot: the first fault from left to right. A number is the place of the
/// first byte of the field at fault.
#[derive(Clone, Copy, Debug, PartialEq, Eq, Error)]
pub enum SnapFault {
    /// Fewer bytes are left than the field needs.
    #[error("byte {0}: the field is cut short")]
    Short(usize),
    /// Bytes follow the last open transaction.
    #[error("byte {0}: bytes follow the last open transaction")]
    Trailing(usize),
    /// The field is outside its form, or breaks a rule with those before it.
    #[error("byte {0}: the field breaks a rule")]
    NotCanonical(usize),
    /// Memory ran out.
    #[error("memory ran out")]
    NoMemory,
}

impl From<AllocError> for SnapFault {
    ghost use Rattle.state_snapshot.specs.declared.fault.SnapFault.TheVariants.{NoMemory};

    ghost from_gives = { λ _ e. e ≡ NoMemory };

    fn from(_e: AllocError) -> SnapFault {
        SnapFault::NoMemory
    }
}

/// The fault of a snapshot that a part has which write sets have too.
pub(crate) fn fault_of(fault: WsFault) -> SnapFault
    requires { IsTrue (is_met fault) }
    ensures { result ≡ fault_of fault }
{
    match fault {
        WsFault::Short(at) => SnapFault::Short(at),
        WsFault::Trailing(at) => SnapFault::Trailing(at),
        WsFault::TooMany(at) => SnapFault::NotCanonical(at),
        WsFault::BadKey(at) => SnapFault::NotCanonical(at),
        WsFault::BadKind(at) => SnapFault::NotCanonical(at),
        WsFault::NotCanonical(at) => SnapFault::NotCanonical(at),
        WsFault::BadChange(at) => SnapFault::NotCanonical(at),
        WsFault::NoMemory => SnapFault::NoMemory,
        // These are of whole write sets, which a snapshot has none of.
        WsFault::BadVersion(_) => unreachable!(),
        WsFault::BadFlags => unreachable!(),
        WsFault::Uncovered(_) => unreachable!(),
    }
}
