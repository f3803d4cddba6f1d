//! The value that threads take turns at.
ghost use Rattle.std.specs.Prelude.{◌≡◌, [], ◌∷◌, ◌++◌, length, refl, MatchResult};
ghost use Rattle.std.proofs.lemmas.List.Prefix.{front_fits};

use node_gate::Counted;
use std::alloc::Global;
use wsrep_base::NoMemory;

/// The seats of the turns that were made, in order, under a name.
#[derive(Drop)]
pub struct Tally {
    name: u64,
    turns: Vec<u64>,
}

impl Tally {
    pub fn new(alloc: Global) -> Tally
        ensures { result.turns.items ≡ [] }
    {
        Tally {
            name: 0,
            turns: Vec::new(alloc),
        }
    }

    pub fn add(&mut self, seat: u64) -> Result<(), NoMemory>
        ensures name { self.new.name ≡ self.old.name }
        ensures turns { MatchResult result
            (λ _. self.new.turns.items ≡ self.old.turns.items ++ seat ∷ [])
            (λ _. self.new.turns.items ≡ self.old.turns.items) }
    {
        self.turns.push(seat)?;
        Ok(())
    }
}

impl Counted for Tally {
    type Entry = u64;

    type Mark = u64;

    ghost entries = { λ t. t.turns.items };

    ghost number = { length };

    ghost mark = { λ t. t.name };

    ghost may = { λ n x. x ≡ n };

    fn committed(&self) -> u64 {
        self.turns.len() as u64
    }

    fn steps(&self) -> u64 {
        self.turns.len() as u64
    }

    ghost never_falls = { λ xs ys. front_fits (xs ++ ys) xs ys refl };
}
