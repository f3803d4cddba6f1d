//! The gate.
ghost use Rattle.std.specs.Prelude.{◌≡◌, ℕ, ◌+◌, ◌^◌, ◌<◌, ◌≤◌, [], ◌∷◌, ◌++◌, length, Some, IfOk, IfErr};
ghost use Rattle.std.specs.Fn.{FnOnceTakesAtMut, FnOnceReturnsAtMut};
ghost use Rattle.node_gate.specs.Calls.{fresh, IsLent, AddsOnly, TookTurn, TookIn, Ended};

use crate::counted::Counted;
use crate::place::Place;
use crate::plays::Rule;
use crate::steps;
use crate::view::View;
use atomic_table::Table;
use std::alloc::Global;
use std::marker::Model;
use std::snapshot::Snapshot;
use std::sync::Wait;
use wsrep_base::NoMemory;

/// A value that threads with a seat each take turns at. Contracts see a gate as its name.
#[derive(Drop)]
pub struct Gate<C: Counted> {
    table: Table<Option<C>, View<C::Entry, C::Mark>, Snapshot<C>, Rule<C>, Global>,
}

impl<C: Counted> Model for Gate<C> {
    ghost use Rattle.std.specs.Prelude.{◌≡◌};
    ghost use Rattle.atomic_table.specs.Seated.{TableId};

    ghost Value = { TableId };

    ghost view = { λ g. g.table.shared.table_id };

    ghost invariant = { λ g. (g.table.shared.table_id.words ≡ 3)
        × (g.table.shared.table_id.slots ≡ 1) };
}

/// A seat of a gate over such a value.
pub type GateSeat<C> = Place<Option<C>, <C as Counted>::Entry, <C as Counted>::Mark>;

impl<C: Counted> Gate<C> {
    /// The gate, and its first seat. The value has no entry.
    pub fn new(alloc: Global, value: C) -> Result<(Gate<C>, GateSeat<C>), (C, NoMemory)>
        requires { C.entries value ≡ [] }
        ensures ok { IfOk result (λ r. r.1 ≡ fresh r.0 0 [] 0 (Some (C.mark value))) }
        ensures err { IfErr result (λ r. r.0 ≡ value) }
    {
        let about = Snapshot::of(&value);
        let number = value.committed();
        let mut slots = match Vec::with_capacity(alloc, 1) {
            Ok(slots) => slots,
            Err(failed) => return Err((value, failed)),
        };
        slots.push_reserved(Some(value));
        match Table::new(alloc, &[0, 0, number], slots, &about) {
            Ok((table, seat)) => Ok((Gate { table }, Place { seat })),
            Err(refused) => {
                let mut slots = refused.slots;
                let value = slots.pop().unwrap().unwrap();
                slots.destroy_empty();
                Err((value, NoMemory))
            }
        }
    }

    /// A further seat, which knows what the first one has seen.
    pub fn split(&self, seat: &mut GateSeat<C>) -> GateSeat<C>
        requires serves { seat.old.gate ≡ self.now }
        requires first { seat.old.number ≡ 0 }
        requires room { seat.old.splits + 2 < 2 ^ 64 }
        ensures first { seat.new ≡ record seat.old { splits = seat.old.splits + 1 } }
        ensures given { result ≡ fresh self.now (seat.old.splits + 1) seat.old.seen
            seat.old.published seat.old.mark }
    {
        Place {
            seat: steps::cut_off::<C>(&self.table.shared, &mut seat.seat),
        }
    }

    /// The number published, by one load.
    pub fn last_committed(&self, seat: &mut GateSeat<C>) -> u64
        requires serves { seat.old.gate ≡ self.now }
        ensures rises { seat.old.published ≤ result }
        ensures read { seat.new
            ≡ record seat.old { published = result; loads = seat.old.loads ++ result ∷ [] } }
    {
        steps::read::<C>(&self.table.shared, &mut seat.seat)
    }

    /// Waits for its turn, calls `act` once on the value, and publishes the value's number.
    pub fn with_turn<T: Wait, R, F: FnOnce(&mut C) -> R>(
        &self,
        rt: &T,
        seat: &mut GateSeat<C>,
        act: F,
    ) -> R
        requires serves { seat.old.gate ≡ self.now }
        requires callable { (c : C) → IsLent C.entries C.number C.mark C.may seat.old c
            → FnOnceTakesAtMut F.FnOnce act c }
        requires adds { (c : C) (r : R) (c' : C) → IsLent C.entries C.number C.mark C.may seat.old c
            → FnOnceReturnsAtMut F.FnOnce act c r c'
            → AddsOnly C.entries C.mark (C.may seat.old.number) c c' }
        ensures { TookTurn C.entries C.number C.mark C.may (FnOnceReturnsAtMut F.FnOnce act)
            seat.old result seat.new }
    {
        let words = &self.table.shared;
        let seat = &mut seat.seat;
        let ticket = steps::draw::<C>(words, seat);
        steps::await_turn::<C, T>(rt, words, seat, ticket);
        let mut value = steps::take::<C>(words, seat);
        let answer = act(&mut value);
        steps::publish::<C>(words, seat, value.committed());
        steps::give::<C>(words, seat, value);
        steps::release::<C>(words, seat);
        answer
    }

    /// Takes the other seat in.
    pub fn meet(&self, seat: &mut GateSeat<C>, other: GateSeat<C>)
        requires serves { seat.old.gate ≡ self.now }
        requires other { other.gate ≡ self.now }
        requires first { seat.old.number ≡ 0 }
        ensures { TookIn seat.old other seat.new }
    {
        let Place { seat: other } = other;
        steps::take_in::<C>(&self.table.shared, &mut seat.seat, other);
    }

    /// The value, once the first seat has taken in as many seats as were split off it.
    pub fn close(self, seat: GateSeat<C>) -> C
        requires serves { seat.gate ≡ self }
        requires first { seat.number ≡ 0 }
        requires all { length seat.met ≡ seat.splits }
        ensures { Ended C.entries C.mark C.may seat result }
    {
        let Gate { table } = self;
        let Place { seat } = seat;
        let mut closed = table.close_with(seat);
        let value = closed.take(0);
        closed.free();
        value.unwrap()
    }
}

fn is_sync<T: Sync>(_shared: &T) {}

fn is_send<T: Send>(_sent: &T) {}

// Threads may share a gate, and a seat may go to another thread, where the value may.
fn crosses_threads<C: Counted + Send>(gate: &Gate<C>, seat: &GateSeat<C>) {
    is_sync(gate);
    is_send(seat);
}
