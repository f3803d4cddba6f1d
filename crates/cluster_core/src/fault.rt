ghost use Rattle.std.specs.Prelude.{◌≡◌};

use group_order::GroupFault;
use std::alloc::AllocError;
use thiserror::Error;

/// Why a step was not done.
#[derive(Clone, Copy, Debug, PartialEq, Eq, Error)]
pub enum StepFault {
    /// The group failed.
    #[error("the group failed")]
    Group,
    /// Memory ran out.
    #[error("memory ran out")]
    NoMemory,
}

impl From<AllocError> for StepFault {
    ghost use Rattle.cluster_core.specs.declared.fault.StepFault.TheVariants.{NoMemory};

    ghost from_gives = { λ _ e. e ≡ NoMemory };

    fn from(_e: AllocError) -> StepFault {
        StepFault::NoMemory
    }
}

impl From<GroupFault> for StepFault {
    ghost use Rattle.cluster_core.specs.Faults.{step_fault};

    ghost from_gives = { λ fault e. e ≡ step_fault fault };

    fn from(fault: GroupFault) -> StepFault {
        match fault {
            GroupFault::Failed => StepFault::Group,
            GroupFault::NoMemory => StepFault::NoMemory,
        }
    }
}
