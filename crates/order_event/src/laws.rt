ghost use Rattle.order_event.specs.Laws.{ReadsBack, OneSpelling, Lengths};

/// An event is read from its spelling and from no other bytes, and the spelling has the length
/// that is said of it.
pub fn one_spelling()
    ensures again { ReadsBack }
    ensures only { OneSpelling }
    ensures lengths { Lengths }
{}
