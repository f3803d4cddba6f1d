//! A seat of a gate, as its callers have it.
use crate::view::View;
use atomic_table::Seat;
use std::marker::Model;

/// A seat of a gate; `GateSeat` names it by the type of the gate's value. It has no bytes.
/// Contracts see what it knows between calls.
#[derive(Drop)]
pub struct Place<S, E, M> {
    pub(crate) seat: Seat<S, View<E, M>>,
}

impl<S, E, M> Model for Place<S, E, M> {
    ghost use Rattle.node_gate.specs.Calls.{Known, known};
    ghost use Rattle.node_gate.specs.Plays.{AtRest};

    ghost Value = { Known E M };

    ghost view = { λ p. known p.seat.table_id p.seat.me.0 };

    ghost invariant = { λ p. AtRest p.seat.me };
}
