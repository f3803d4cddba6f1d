//! What tables have in common in which each holder has the same keys, as the contract of a call
//! that does nothing.
ghost use Rattle.row_locks.specs.Alike.{BlockAlike, TouchAlike};

/// Tables in which each holder has the same keys block alike and touch alike.
pub fn lock_laws()
    ensures block { BlockAlike }
    ensures touch { TouchAlike }
{}
