//! The rule of the table, and what each step tells. These types are for the proofs alone.
ghost use Rattle.std.specs.Prelude.{[], Some};
ghost use Rattle.node_gate.specs.Views.{newcomer, cut, another, joined, gone};
ghost use Rattle.node_gate.specs.Law.{Law};
ghost use Rattle.node_gate.specs.Plays.{drew, looked, released, learned, published, read, took, gave};

use crate::counted::Counted;
use crate::view::View;
use atomic_table::{Join, Play, Split, TableRule};
use std::marker::PhantomData;
use std::snapshot::Snapshot;

/// The rule of a gate over such a value; the table is told the value that it begins with.
pub struct Rule<C> {
    value: PhantomData<C>,
}

impl<C: Counted> TableRule<Option<C>, View<C::Entry, C::Mark>, Snapshot<C>> for Rule<C> {
    ghost holds = { λ _. Law C.entries C.number C.mark C.may };

    ghost first = { λ key. newcomer 0 [] 0 (Some (C.mark key.value)) };
}

/// A ticket is drawn: one add on the word of tickets.
pub struct Draw;

impl<S, E, M> Play<S, View<E, M>> for Draw {
    ghost then = { drew };
}

/// The word of the ticket served is loaded.
pub struct Look;

impl<S, E, M> Play<S, View<E, M>> for Look {
    ghost then = { looked };
}

/// The turn is over: one add on the word of the ticket served.
pub struct Release;

impl<S, E, M> Play<S, View<E, M>> for Release {
    ghost then = { released };
}

/// A seat is split off.
pub struct Cut;

impl<E, M> Split<View<E, M>> for Cut {
    ghost left = { cut };

    ghost right = { another };
}

/// A seat takes another in.
pub struct Meet;

impl<E, M> Join<View<E, M>> for Meet {
    ghost both = { joined };

    ghost spent = { gone };
}

/// The ticket served is loaded once more, and what both seats had seen is seen.
pub struct Learn;

impl<S, E, M> Play<S, View<E, M>> for Learn {
    ghost then = { learned };
}

/// The ticket served is loaded once more, and the slot is taken.
pub struct Take<C> {
    value: PhantomData<C>,
}

impl<C: Counted> Play<Option<C>, View<C::Entry, C::Mark>> for Take<C> {
    ghost then = { took C.entries C.number C.mark C.may };
}

/// The ticket served is loaded once more, and the slot is given back.
pub struct Give<C> {
    value: PhantomData<C>,
}

impl<C: Counted> Play<Option<C>, View<C::Entry, C::Mark>> for Give<C> {
    ghost then = { gave C.entries C.number C.mark C.may };
}

/// A number is published: one store on the word of the number.
pub struct Publish;

impl<S, E, M> Play<S, View<E, M>> for Publish {
    ghost then = { published };
}

/// The number published is loaded.
pub struct Read;

impl<S, E, M> Play<S, View<E, M>> for Read {
    ghost then = { read };
}
