//! What the events that fit a size are.

ghost use Rattle.gcache_ring.specs.Laws.{IsSuffix, Fits, IsLongest, HeldOfHeld};

/// The events that are held are the longest suffix that fits, and stay so as events are added to
/// them.
pub fn longest_suffix()
    ensures suffix { IsSuffix }
    ensures fits { Fits }
    ensures longest { IsLongest }
    ensures grows { HeldOfHeld }
{}
