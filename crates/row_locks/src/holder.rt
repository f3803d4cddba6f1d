/// Who holds keys. Sessions come before units, each by number.
#[derive(Clone, Copy, Debug, PartialEq, Eq, PartialOrd, Ord, Hash)]
pub enum Holder {
    Session(u8),
    Unit(u64),
}

/// What became of a request for a key.
#[derive(Clone, Copy, Debug, PartialEq, Eq)]
pub enum Grant {
    Held,
    /// This holder has a key that touches, and nothing was done.
    Busy(Holder),
}
