//! Turns at a tally, by one seat, by two threads and by many.
ghost use Rattle.std.specs.Prelude.{◌≡◌, ◌+◌, ◌^◌, ◌<◌, [], length, IfOk};

use crate::tally::Tally;
use node_gate::{Counted, Gate, GateSeat};
use std::alloc::Global;
use std::sync::Wait;
use std::thread::{Threads, join};
use wsrep_base::NoMemory;

/// A gate over a tally of this name, and its first seat.
pub(crate) fn open(alloc: Global, name: u64) -> Result<(Gate<Tally>, GateSeat<Tally>), NoMemory>
    ensures { IfOk result (λ r. (r.1.gate ≡ r.0) × (r.1.number ≡ 0)
        × (r.1.splits ≡ 0) × (r.1.met ≡ [])) }
{
    match Gate::new(alloc, Tally::new(alloc, name)) {
        Ok(made) => Ok(made),
        Err((_, failed)) => Err(failed),
    }
}

/// One turn of the seat with this number, which notes it.
pub(crate) fn note<T: Wait>(
    rt: &T,
    gate: &Gate<Tally>,
    seat: &mut GateSeat<Tally>,
    number: u64,
) -> Result<(), NoMemory>
    requires serves { seat.old.gate ≡ gate.now }
    requires number { seat.old.number ≡ number }
    ensures same { (seat.new.gate ≡ seat.old.gate) × (seat.new.number ≡ seat.old.number) }
    ensures taken_in { (seat.new.splits ≡ seat.old.splits) × (seat.new.met ≡ seat.old.met) }
{
    gate.with_turn(rt, seat, |tally| tally.note(number))
}

/// Three turns of the seat with this number, as far as memory lasts.
pub(crate) fn note_thrice<T: Wait>(
    rt: &T,
    gate: &Gate<Tally>,
    mut seat: GateSeat<Tally>,
    number: u64,
) -> (GateSeat<Tally>, Result<(), NoMemory>)
    requires serves { seat.gate ≡ gate.now }
    requires number { seat.number ≡ number }
    ensures same { (result.0.gate ≡ seat.gate) × (result.0.number ≡ seat.number) }
    ensures taken_in { (result.0.splits ≡ seat.splits) × (result.0.met ≡ seat.met) }
{
    let first = note(rt, gate, &mut seat, number);
    let second = note(rt, gate, &mut seat, number);
    let third = note(rt, gate, &mut seat, number);
    (seat, first.and(second).and(third))
}

/// Two threads with a seat each make three turns; the tally that is left.
pub(crate) fn two_threads<R: Threads + Wait + Sync>(
    rt: &R,
    alloc: Global,
) -> Result<Tally, NoMemory> {
    let (gate, mut first) = open(alloc, 7)?;
    let second = gate.split(&mut first);
    let shared = &gate;
    let ((mut first, mine), (second, theirs)) = join(
        rt,
        move || note_thrice(rt, shared, first, 0),
        move || note_thrice(rt, shared, second, 1),
    );
    mine.and(theirs)?;
    gate.meet(&mut first, second);
    Ok(gate.close(first))
}

/// What a seat that was split off before answers before a turn of the first one and after it.
pub(crate) fn seen_by_another<T: Wait>(rt: &T, alloc: Global) -> Result<(u64, u64), NoMemory> {
    let (gate, mut first) = open(alloc, 7)?;
    let mut second = gate.split(&mut first);
    let before = gate.last_committed(&mut second);
    note(rt, &gate, &mut first, 0)?;
    let after = gate.last_committed(&mut second);
    Ok((before, after))
}
