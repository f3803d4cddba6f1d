//! What a value behind a gate has to be.
ghost use Rattle.std.specs.Prelude.{◌≡◌, ℕ, ◌≤◌, ◌++◌, List, length};

/// A value that means a list of entries and a mark.
pub trait Counted {
    /// What a turn adds.
    type Entry;

    /// What no turn changes. Contracts alone have it.
    type Mark;

    ghost entries: { Self → List Self.Entry };

    ghost number: { List Self.Entry → ℕ };

    ghost mark: { Self → Self.Mark };

    // Which entries the seat with a number may add.
    ghost may: { ℕ → Self.Entry → Type 0 };

    /// The number that the gate publishes.
    fn committed(&self) -> u64
        ensures { result ≡ number (entries self.now) };

    /// How many entries there are.
    fn steps(&self) -> u64
        ensures { result ≡ length (entries self.now) };

    ghost never_falls: { (xs ys : List Self.Entry) → number xs ≤ number (xs ++ ys) };
}
