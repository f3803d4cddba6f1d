/// How far an open transaction has come.
#[derive(Clone, Copy, Debug, PartialEq, Eq)]
pub struct Shape {
    /// How many fragments of it have passed.
    pub fragments: u64,
    /// The number up to which it had seen the order at the last of them.
    pub last_seen: u64,
}
