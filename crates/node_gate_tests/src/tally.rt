//! A value to put behind a gate.
ghost use Rattle.std.specs.Prelude.{◌≡◌, [], ◌∷◌, ◌++◌, length, refl, MatchResult};
ghost use Rattle.std.proofs.lemmas.List.Prefix.{front_fits};

use node_gate::Counted;
use std::alloc::Global;
use wsrep_base::NoMemory;

/// Notes in order, each the number of the seat that made it, under a name.
#[derive(Drop)]
pub struct Tally {
    pub name: u64,
    pub notes: Vec<u64>,
}

impl Tally {
    /// No note.
    pub fn new(alloc: Global, name: u64) -> Tally
        ensures { (result.name ≡ name) × (result.notes.items ≡ []) }
    {
        Tally {
            name,
            notes: Vec::new(alloc),
        }
    }

    /// One more note of this seat.
    pub fn note(&mut self, seat: u64) -> Result<(), NoMemory>
        ensures name { self.new.name ≡ self.old.name }
        ensures notes { MatchResult result
            (λ _. self.new.notes.items ≡ self.old.notes.items ++ seat ∷ [])
            (λ _. self.new.notes.items ≡ self.old.notes.items) }
    {
        self.notes.push(seat)?;
        Ok(())
    }
}

impl Counted for Tally {
    type Entry = u64;

    type Mark = u64;

    ghost entries = { λ t. t.notes.items };

    ghost number = { length };

    ghost mark = { λ t. t.name };

    // A seat notes itself.
    ghost may = { λ n x. x ≡ n };

    fn committed(&self) -> u64 {
        self.notes.len() as u64
    }

    fn steps(&self) -> u64 {
        self.notes.len() as u64
    }

    ghost never_falls = { λ xs ys. front_fits (xs ++ ys) xs ys refl };
}
