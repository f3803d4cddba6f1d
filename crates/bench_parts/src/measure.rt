//! What one measure comes to.

/// How many rounds of a work are done, and whether their time is printed, or what they found.
#[derive(Clone, Copy)]
pub struct Rounds {
    pub count: u32,
    pub timed: bool,
}

/// What was found, and the nanoseconds that it took.
#[derive(Clone, Copy)]
pub struct Measure {
    pub found: u64,
    pub nanos: u128,
}

impl Measure {
    /// Nanoseconds of one of so many.
    pub fn each(&self, count: u32) -> u128 {
        self.nanos / u128::from(count.max(1))
    }
}
