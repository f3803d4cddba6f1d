//! What a seat knows. No value of these types is made: contracts and the gate's rule see them.
use std::collections::LinkedList;

/// What a seat has of the ticket lock.
pub enum Lock {
    /// No ticket.
    Idle,
    /// This ticket, and not its turn yet.
    Waiting(u64),
    /// This ticket, whose turn it has read.
    Serving(u64),
    /// Nothing any more: another seat took it in.
    Gone,
}

/// A turn: the number of the seat and the entries that it added.
pub struct Turn<E> {
    pub seat: u64,
    pub entries: LinkedList<E>,
}

/// A seat that was taken in: its number and its own turns.
pub struct Met<E> {
    pub number: u64,
    pub turns: LinkedList<Turn<E>>,
}

/// What a seat at the gate's table knows.
pub struct View<E, M> {
    pub lock: Lock,
    /// Whether the gate's value is with it.
    pub holds: bool,
    pub number: u64,
    /// How many seats were split off it.
    pub splits: u64,
    pub met: LinkedList<Met<E>>,
    /// The turns that it has seen.
    pub seen: LinkedList<Turn<E>>,
    /// The turns that the seat which it took in last had seen.
    pub told: LinkedList<Turn<E>>,
    pub own: LinkedList<Turn<E>>,
    /// The greatest number that it has seen published.
    pub published: u64,
    pub loads: LinkedList<u64>,
    /// The mark of the gate's value; none once the seat was taken in.
    pub mark: Option<M>,
}
