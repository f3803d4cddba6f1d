use key_sets::{Kind, Parts};

/// A key of a commit.
#[derive(Clone, Copy, Debug)]
pub struct Entry {
    /// The number of the commit.
    pub number: u64,
    pub key: (Parts, Kind),
}
