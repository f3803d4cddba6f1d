use thiserror::Error;

/// Why a key was not added.
#[derive(Clone, Copy, Debug, PartialEq, Eq, Error)]
pub enum KeyFault {
    /// The parts are new, and the set has as many keys as it may have.
    #[error("the key set is full")]
    Full,
    #[error("out of memory")]
    NoMemory,
}
