//! The laws of the fold, each as the contract of a call that does nothing.
ghost use Rattle.cert_meaning.specs.Open.{OpenStayUnopposed, RowsAreAsSeen};
ghost use Rattle.cert_meaning.specs.Floor.{FloorNeverFalls};
ghost use Rattle.cert_meaning.specs.Changes.{CommitsChangeRows, NothingElseDoes};

/// At every point of an order the fragments of two open transactions do not touch, and no commit
/// conflicts with an open fragment since what that fragment had seen. So each row that a passed
/// commit changes has before it the value that it had when its transaction saw it. The floor
/// never falls. The rows change at commits that pass, by the changes of the transaction's
/// fragments and then its own, and at no other event: nothing of a transaction that is open, has
/// failed or was rolled back shows at any number.
pub fn fold_laws()
    ensures unopposed { OpenStayUnopposed }
    ensures as_seen { RowsAreAsSeen }
    ensures floor { FloorNeverFalls }
    ensures changed { CommitsChangeRows }
    ensures unchanged { NothingElseDoes }
{}
