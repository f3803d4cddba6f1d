//! A turn of one gate inside a turn of another.
ghost use Rattle.std.specs.Prelude.{◌≡◌, [], ◌∷◌, ◌++◌, length, refl, IfOk, Some, MatchResult};
ghost use Rattle.std.proofs.lemmas.List.Prefix.{front_fits};

use crate::tally::Tally;
use crate::turns::{note, open};
use node_gate::{Counted, Gate, GateSeat};
use std::alloc::Global;
use std::sync::Wait;
use wsrep_base::NoMemory;

/// A value that holds a seat of another gate, and notes whose seats its turns were.
#[derive(Drop)]
pub struct Relay {
    number: u64,
    seat: GateSeat<Tally>,
    notes: Vec<u64>,
    ghost own: { seat.number ≡ number },
}

impl Relay {
    fn new(alloc: Global, seat: GateSeat<Tally>, number: u64) -> Relay
        requires { seat.number ≡ number }
        ensures { (result.seat ≡ seat) × (result.notes.items ≡ []) }
    {
        Relay {
            number,
            seat,
            notes: Vec::new(alloc),
        }
    }

    // One note here, and in its turn one of the relay's own seat there.
    fn pass_on<T: Wait>(&mut self, rt: &T, to: &Gate<Tally>) -> Result<(), NoMemory>
        requires serves { self.old.seat.gate ≡ to.now }
        ensures seat { self.new.seat.gate ≡ self.old.seat.gate }
        ensures notes { MatchResult result
            (λ _. self.new.notes.items ≡ self.old.notes.items ++ self.old.number ∷ [])
            (λ _. self.new.notes.items ≡ self.old.notes.items) }
    {
        note(rt, to, &mut self.seat, self.number)?;
        self.notes.push(self.number)?;
        Ok(())
    }
}

impl Counted for Relay {
    type Entry = u64;

    // The gate that its seat serves.
    type Mark = Gate<Tally>;

    ghost entries = { λ r. r.notes.items };

    ghost number = { length };

    ghost mark = { λ r. r.seat.gate };

    ghost may = { λ _ _. Unit {0} };

    fn committed(&self) -> u64 {
        self.notes.len() as u64
    }

    fn steps(&self) -> u64 {
        self.notes.len() as u64
    }

    ghost never_falls = { λ xs ys. front_fits (xs ++ ys) xs ys refl };
}

// One turn, which makes a turn of the other gate.
fn pass_on<T: Wait>(
    rt: &T,
    gate: &Gate<Relay>,
    seat: &mut GateSeat<Relay>,
    to: &Gate<Tally>,
) -> Result<(), NoMemory>
    requires serves { seat.old.gate ≡ gate.now }
    requires mark { seat.old.mark ≡ Some to.now }
    ensures same { (seat.new.gate ≡ seat.old.gate) × (seat.new.mark ≡ seat.old.mark) }
{
    gate.with_turn(rt, seat, |relay| relay.pass_on(rt, to))
}

/// Two turns of a gate whose value holds a seat of another gate; the numbers that both published.
pub(crate) fn turns_in_turns<T: Wait>(rt: &T, alloc: Global) -> Result<(u64, u64), NoMemory> {
    let (inner, mut first) = open(alloc, 7)?;
    let second = inner.split(&mut first);
    let (outer, mut seat) = match Gate::new(alloc, Relay::new(alloc, second, 1)) {
        Ok(made) => made,
        Err((_, failed)) => return Err(failed),
    };
    pass_on(rt, &outer, &mut seat, &inner)?;
    pass_on(rt, &outer, &mut seat, &inner)?;
    Ok((
        outer.last_committed(&mut seat),
        inner.last_committed(&mut first),
    ))
}
