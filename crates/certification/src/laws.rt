//! The laws of trimmed states, as the contract of a call that does nothing.
ghost use Rattle.certification.specs.Laws.{SameVerdictTrimmed, TrimmedGoesOn};

/// A write set has the same verdict over a state of an order and over the state trimmed, and each
/// event leads from both to states that trimmed are the same. So a node that installed a snapshot
/// certifies from then on as all others do.
pub fn trimmed_states_go_on()
    ensures verdict { SameVerdictTrimmed }
    ensures next { TrimmedGoesOn }
{}
