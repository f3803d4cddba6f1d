//! The steps of a seat on the gate's table, one function for each.
ghost use Rattle.std.specs.Prelude.{◌≡◌, ℕ, ◌+◌, ◌%◌, ◌^◌, ◌<◌, ◌≤◌, true, false, List, [], ◌∷◌, Some};
ghost use Rattle.node_gate.specs.declared.view.Lock.TheVariants.{Idle, Waiting, Serving};
ghost use Rattle.node_gate.specs.Views.{cut, another, taking, done, loaded};
ghost use Rattle.node_gate.specs.Plays.{Serves, Stays, AtRest, with_lock, TakesIn, Lent, Adds, MayReturn};

use crate::counted::Counted;
use crate::plays::{Cut, Draw, Give, Learn, Look, Meet, Publish, Read, Release, Rule, Take};
use crate::view::View;
use atomic_table::{Seat, Shared};
use std::snapshot::Snapshot;
use std::sync::Wait;
use std::thread;

/// The word of the tickets drawn.
const TICKET: usize = 0;

/// The word of the ticket served.
const SERVING: usize = 1;

/// The word of the number published.
const COMMITTED: usize = 2;

/// The gate's table, as threads share it.
pub(crate) type Words<C> = Shared<
    Option<C>,
    View<<C as Counted>::Entry, <C as Counted>::Mark>,
    Snapshot<C>,
    Rule<C>,
>;

/// A seat at the gate's table.
pub(crate) type Holder<C> = Seat<Option<C>, View<<C as Counted>::Entry, <C as Counted>::Mark>>;

/// Draws a ticket.
pub(crate) fn draw<C: Counted>(words: &Words<C>, seat: &mut Holder<C>) -> u64
    requires serves { Serves seat.old.table_id words.now.table_id }
    requires idle { seat.old.me.0.lock ≡ Idle }
    ensures own { Stays seat.old seat.new }
    ensures drew { (k : ℕ) × (result ≡ k % 2 ^ 64)
        × (seat.new.me ≡ with_lock (Waiting k) seat.old.me) }
{
    words.fetch_add::<Draw>(seat, TICKET, 1)
}

/// Waits until the ticket is served.
pub(crate) fn await_turn<C: Counted, T: Wait>(
    rt: &T,
    words: &Words<C>,
    seat: &mut Holder<C>,
    ticket: u64,
)
    requires serves { Serves seat.old.table_id words.now.table_id }
    requires drew { (k : ℕ) × (seat.old.me.0.lock ≡ Waiting k) × (ticket ≡ k % 2 ^ 64) }
    ensures own { Stays seat.old seat.new }
    ensures turn { (k : ℕ) × (seat.new.me ≡ with_lock (Serving k) seat.old.me) }
{
    for _ in rt.forever() {
        if words.load::<Look>(seat, SERVING) == ticket {
            return;
        }
        thread::yield_now();
    }
    unreachable!()
}

/// Takes the value out of the slot.
pub(crate) fn take<C: Counted>(words: &Words<C>, seat: &mut Holder<C>) -> C
    requires serves { Serves seat.old.table_id words.now.table_id }
    requires turn { (k : ℕ) × (seat.old.me.0.lock ≡ Serving k) }
    requires empty { (seat.old.me.0.holds ≡ false) × (seat.old.me.1 ≡ []) }
    ensures own { Stays seat.old seat.new }
    ensures took { (l : Lent C.entries C.number C.mark C.may seat.old.me.0 result)
        × (seat.new.me ≡ (taking seat.old.me.0 l.log (C.number (C.entries result)), (0, None) ∷ [])) }
{
    words.load::<Take<C>>(seat, SERVING);
    words.exchange(seat, 0, None).unwrap()
}

/// Puts the value into the slot.
pub(crate) fn give<C: Counted>(words: &Words<C>, seat: &mut Holder<C>, value: C)
    requires serves { Serves seat.old.table_id words.now.table_id }
    requires turn { (k : ℕ) × (seat.old.me.0.lock ≡ Serving k) }
    requires out { (seat.old.me.0.holds ≡ true) × (seat.old.me.1 ≡ (0, None) ∷ []) }
    requires shown { seat.old.me.0.published ≡ C.number (C.entries value) }
    requires value { MayReturn C.entries C.mark C.may seat.old.me.0 value }
    ensures own { Stays seat.old seat.new }
    ensures gave { (added : List C.Entry) × (seat.new.me ≡ (done seat.old.me.0 added, []))
        × Adds C.entries C.may seat.old.me.0 value added }
{
    match words.exchange(seat, 0, Some(value)) {
        None => {}
        Some(_) => unreachable!(),
    }
    words.load::<Give<C>>(seat, SERVING);
}

/// Publishes the number of the value that is out.
pub(crate) fn publish<C: Counted>(words: &Words<C>, seat: &mut Holder<C>, number: u64)
    requires serves { Serves seat.old.table_id words.now.table_id }
    requires turn { (k : ℕ) × (seat.old.me.0.lock ≡ Serving k) }
    requires out { seat.old.me.0.holds ≡ true }
    requires rises { seat.old.me.0.published ≤ number }
    ensures own { Stays seat.old seat.new }
    ensures shown { seat.new.me ≡ (record seat.old.me.0 { published = number }, seat.old.me.1) }
{
    words.store::<Publish>(seat, COMMITTED, number);
}

/// Loads the number published.
pub(crate) fn read<C: Counted>(words: &Words<C>, seat: &mut Holder<C>) -> u64
    requires serves { Serves seat.old.table_id words.now.table_id }
    requires rest { AtRest seat.old.me }
    ensures own { Stays seat.old seat.new }
    ensures rises { seat.old.me.0.published ≤ result }
    ensures read { seat.new.me ≡ (loaded seat.old.me.0 result, []) }
{
    words.load::<Read>(seat, COMMITTED)
}

/// Ends the turn.
pub(crate) fn release<C: Counted>(words: &Words<C>, seat: &mut Holder<C>)
    requires serves { Serves seat.old.table_id words.now.table_id }
    requires turn { (k : ℕ) × (seat.old.me.0.lock ≡ Serving k) }
    requires given { seat.old.me.0.holds ≡ false }
    ensures own { Stays seat.old seat.new }
    ensures idle { seat.new.me ≡ with_lock Idle seat.old.me }
{
    words.fetch_add::<Release>(seat, SERVING, 1);
}

/// Splits a seat off the first one.
pub(crate) fn cut_off<C: Counted>(words: &Words<C>, seat: &mut Holder<C>) -> Holder<C>
    requires serves { Serves seat.old.table_id words.now.table_id }
    requires rest { AtRest seat.old.me }
    requires first { seat.old.me.0.number ≡ 0 }
    requires room { seat.old.me.0.splits + 2 < 2 ^ 64 }
    ensures own { Stays seat.old seat.new }
    ensures left { seat.new.me ≡ (cut seat.old.me.0, []) }
    ensures right { (result.table_id ≡ seat.old.table_id)
        × (result.me ≡ (another seat.old.me.0, [])) }
{
    words.split_seat::<Cut>(seat)
}

/// Takes the other seat in, and sees what both had seen.
pub(crate) fn take_in<C: Counted>(words: &Words<C>, seat: &mut Holder<C>, other: Holder<C>)
    requires serves { Serves seat.old.table_id words.now.table_id }
    requires other { Serves other.table_id words.now.table_id }
    requires rest { AtRest seat.old.me × AtRest other.me }
    requires first { seat.old.me.0.number ≡ 0 }
    ensures own { Stays seat.old seat.new }
    ensures both { TakesIn seat.old.me.0 other.me.0 seat.new.me }
{
    words.join_seat::<Meet>(seat, other);
    words.load::<Learn>(seat, SERVING);
}
