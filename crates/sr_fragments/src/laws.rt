//! What the open transactions have to do with a fold, as the contract of a call that does nothing.
ghost use Rattle.sr_fragments.specs.Following.{BeginsEmpty, DropsTheGone, FollowsTheFold, HoldsAsTheFold};

/// Open transactions that equal those of a fold state before an event equal them after it: at a
/// fragment that passes by `add`, at a commit, a rollback and a failure that ends its transaction
/// by `close`, and at a view by `drop_member` for each member that is gone. What stands in the way
/// of some keys is what the fold finds.
pub fn open_laws()
    ensures begins { BeginsEmpty }
    ensures follows { FollowsTheFold }
    ensures dropped { DropsTheGone }
    ensures holds { HoldsAsTheFold }
{}
