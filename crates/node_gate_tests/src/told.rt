//! A value that is generic in a watcher, which may be a box.
ghost use Rattle.std.specs.Prelude.{◌≡◌, ℕ, ◌≤◌, [], ◌∷◌, ◌++◌, length, refl, MatchResult};
ghost use Rattle.std.proofs.lemmas.List.Prefix.{front_fits};

use crate::tally::Tally;
use node_gate::{Counted, Gate, GateSeat};
use std::alloc::Global;
use std::sync::Wait;
use std::thread::{Threads, join};
use wsrep_base::NoMemory;

/// Who is told of each turn.
pub trait Watcher: Drop {
    /// A turn of this seat was made.
    fn hear(&mut self, seat: u64);
}

impl Watcher for Box<dyn Watcher + Send> {
    fn hear(&mut self, seat: u64) {
        (**self).hear(seat);
    }
}

/// A tally that tells a watcher.
#[derive(Drop)]
pub struct Told<W: Watcher> {
    tally: Tally,
    watcher: W,
}

impl<W: Watcher> Told<W> {
    fn note(&mut self, seat: u64) -> Result<(), NoMemory>
        ensures name { self.new.tally.name ≡ self.old.tally.name }
        ensures notes { MatchResult result
            (λ _. self.new.tally.notes.items ≡ self.old.tally.notes.items ++ seat ∷ [])
            (λ _. self.new.tally.notes.items ≡ self.old.tally.notes.items) }
    {
        self.tally.note(seat)?;
        self.watcher.hear(seat);
        Ok(())
    }
}

impl<W: Watcher> Counted for Told<W> {
    type Entry = u64;

    type Mark = u64;

    ghost entries = { λ t. t.tally.notes.items };

    ghost number = { length };

    ghost mark = { λ t. t.tally.name };

    ghost may = { λ n x. x ≡ n };

    fn committed(&self) -> u64 {
        self.tally.committed()
    }

    fn steps(&self) -> u64 {
        self.tally.steps()
    }

    ghost never_falls = { λ xs ys. front_fits (xs ++ ys) xs ys refl };
}

fn note<T: Wait, W: Watcher>(
    rt: &T,
    gate: &Gate<Told<W>>,
    mut seat: GateSeat<Told<W>>,
    number: u64,
) -> (GateSeat<Told<W>>, Result<(), NoMemory>)
    requires serves { seat.gate ≡ gate.now }
    requires number { seat.number ≡ number }
    ensures same { (result.0.gate ≡ seat.gate) × (result.0.number ≡ seat.number) }
    ensures taken_in { (result.0.splits ≡ seat.splits) × (result.0.met ≡ seat.met) }
{
    let noted = gate.with_turn(rt, &mut seat, |told| told.note(number));
    (seat, noted)
}

/// Two threads with a seat each make a turn; how many entries there are.
pub(crate) fn two_threads<R: Threads + Wait + Sync, W: Watcher + Send>(
    rt: &R,
    alloc: Global,
    watcher: W,
) -> Result<u64, NoMemory> {
    let tally = Tally::new(alloc, 7);
    let (gate, mut first) = match Gate::new(alloc, Told { tally, watcher }) {
        Ok(made) => made,
        Err((_, failed)) => return Err(failed),
    };
    let second = gate.split(&mut first);
    let shared = &gate;
    let ((mut first, mine), (second, theirs)) = join(
        rt,
        move || note(rt, shared, first, 0),
        move || note(rt, shared, second, 1),
    );
    mine.and(theirs)?;
    gate.meet(&mut first, second);
    Ok(gate.close(first).steps())
}
