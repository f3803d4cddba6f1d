ghost use Rattle.std.specs.Prelude.{◌≡◌};

use bytes::Bytes;
use order_event::EventList;
use state_snapshot::SnapFault;
use std::alloc::AllocError;
use thiserror::Error;
use wsrep_base::NoMemory;

/// What a node gives to one that joins.
#[derive(Debug, Drop)]
pub enum Gift {
    /// The events that it misses (incremental state transfer).
    Ist(EventList),
    /// A snapshot of the state (state snapshot transfer).
    Sst(Bytes),
}

/// Why a node gives nothing.
#[derive(Clone, Copy, Debug, PartialEq, Eq, Error)]
pub enum GiveFault {
    /// A snapshot is due, and the node has certified up to the one number and committed up to the
    /// other.
    #[error("the node has certified up to {0} and committed up to {1}")]
    Busy(u64, u64),
    /// Memory ran out.
    #[error("memory ran out")]
    NoMemory,
}

impl From<AllocError> for GiveFault {
    ghost use Rattle.node_core.specs.declared.gift.GiveFault.TheVariants.{NoMemory};

    ghost from_gives = { λ _ e. e ≡ NoMemory };

    fn from(_e: AllocError) -> GiveFault {
        GiveFault::NoMemory
    }
}

/// Why a node takes nothing of what it is given.
#[derive(Clone, Copy, Debug, PartialEq, Eq, Error)]
pub enum ReceiveFault {
    /// The bytes are no snapshot.
    #[error("{0}")]
    Snap(SnapFault),
    /// Memory ran out.
    #[error("memory ran out")]
    NoMemory,
}

impl From<AllocError> for ReceiveFault {
    ghost use Rattle.node_core.specs.declared.gift.ReceiveFault.TheVariants.{NoMemory};

    ghost from_gives = { λ _ e. e ≡ NoMemory };

    fn from(_e: AllocError) -> ReceiveFault {
        ReceiveFault::NoMemory
    }
}
