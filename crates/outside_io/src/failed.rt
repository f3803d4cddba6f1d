use thiserror::Error;

/// The outside failed: nothing was read, or nothing was written.
#[derive(Clone, Copy, Debug, PartialEq, Eq, Drop, Error)]
#[error("the outside failed")]
pub struct Failed;
