//! What an index finds, told over the commits that were entered, as the contract of a call that
//! does nothing.
ghost use Rattle.cert_index.specs.Laws.{FindsConflict, FindsTouch, HoldsEntered, HoldsNone, HoldsPurged};

/// An index holds the commits that were entered and not purged. What conflicts since a last seen
/// that was not purged, and what touches, is what a search over all these commits finds.
pub fn index_laws()
    ensures none { HoldsNone }
    ensures entered { HoldsEntered }
    ensures purged { HoldsPurged }
    ensures conflict { FindsConflict }
    ensures touch { FindsTouch }
{}
