//! What the members have to do with a fold, as the contract of a call that does nothing.
ghost use Rattle.view_change.specs.Following.{BeginsEmpty, FollowsTheFold, SettledAlong, ItemsComeBack};

/// Members that equal those of a fold state before an event equal them after it, floor included:
/// at a view by `view`, at a report by `report`, and at a write set by `set_serial`, unless it is
/// malformed, a stranger's or a repeat. Items whose members rise are given back.
pub fn following_laws()
    ensures begins { BeginsEmpty }
    ensures follows { FollowsTheFold }
    ensures settled { SettledAlong }
    ensures items { ItemsComeBack }
{}
