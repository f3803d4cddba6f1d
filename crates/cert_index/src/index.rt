ghost use Rattle.std.specs.Prelude.{◌≡◌, ◌+◌, ◌*◌, ◌<◌, ◌≤◌, ◌++◌, [], ◌∷◌, cond, None, IfOk, OnOk, OnErr, IsOk};
ghost use Rattle.finite_map.specs.FiniteMap.{len};
ghost use Rattle.key_sets.specs.Probes.{kind_test};
ghost use Rattle.key_sets.specs.declared.relation.Relation.TheVariants.{Conflict};
ghost use Rattle.cert_meaning.specs.Extremes.{greater};
ghost use Rattle.cert_index.specs.Index.{above, entries_of, latest, latest_conflict, latest_touch, meets, only_above, AreUpTo};
ghost use Rattle.cert_index.specs.Count.{latest_of};
ghost use Rattle.cert_index.specs.Pairs.{is_at};
ghost use Rattle.cert_index.specs.Table.{kinds_met, one_if, pair_meets};

use crate::entry::Entry;
use crate::pair::Pair;
use crate::table::{drop_old, enter_all};
use key_sets::{KeySet, Kind, Parts, Relation};
use std::alloc::Global;
use std::collections::{HashMap, VecDeque};
use std::marker::{Brand, Model};
use std::sync::ledger::{Blank, Ledger};
use wsrep_base::{NoMemory, Steps};

/// The keys of commits, each with its commit's number, and for each kind at each parts the latest
/// commit that has it. A key of a row counts as shared at its table. It is seen as the list of the
/// keys that it keeps, oldest first.
#[derive(Drop)]
pub struct Index {
    latest: HashMap<Pair, u64>,
    kept: VecDeque<Entry>,
}

impl Model for Index {
    ghost use Rattle.std.specs.Prelude.{List};
    ghost use Rattle.cert_index.specs.declared.entry.Entry.{Entry};
    ghost use Rattle.cert_index.specs.Table.{Finds};

    ghost Value = { List Entry };

    ghost view = { λ index. index.kept.items };

    ghost invariant = { λ index. Finds index.latest.entries index.kept.items };
}

impl Index {
    /// An index of no commits. It takes no memory.
    pub fn new(alloc: Global) -> Result<Index, NoMemory>
        ensures empty { IfOk result (λ index. index ≡ []) }
        ensures succeeds { IsOk result }
    {
        Ok(Index {
            latest: HashMap::new(alloc),
            kept: VecDeque::new(alloc),
        })
    }

    /// The greatest commit above what was last seen whose keys conflict with these. A step is one
    /// look-up of a kind at some parts, and there are at most four a key.
    pub fn conflict<L: Ledger>(
        &self,
        keys: &KeySet,
        last_seen: u64,
        steps: &mut Steps<L>,
    ) -> Option<u64>
        ensures latest { result ≡ latest_conflict self.now last_seen keys.now.entries }
        ensures steps { steps.new ≤ steps.old + 4 * len keys.now }
    {
        only_above(last_seen, self.met(Relation::Conflict, keys, steps))
    }

    /// The greatest commit whose keys touch these.
    pub fn dependency(&self, keys: &KeySet) -> Option<u64>
        ensures { result ≡ latest_touch self.now keys.now.entries }
    {
        self.touched::<Brand>(keys, Blank::new(1))
    }

    /// The number of the kinds at parts that the keys have, each counted once. A key of a row has
    /// two: its own, and shared at its table.
    pub fn entries(&self) -> u64
        ensures { result ≡ len (latest_of self.now) }
    {
        self.latest.len() as u64
    }

    /// Enters the keys of a commit, whose number no commit that was entered is above. It costs
    /// what is entered.
    pub fn enter(&mut self, number: u64, keys: &KeySet) -> Result<(), NoMemory>
        requires up_to { AreUpTo number self.old }
        ensures ok { OnOk result (self.new ≡ self.old ++ entries_of number keys.now.entries) }
        ensures err { OnErr result (self.new ≡ self.old) }
    {
        let keys = keys.as_slice();
        self.latest.reserve(2 * keys.len())?;
        self.kept.reserve(keys.len())?;
        enter_all(&mut self.latest, &mut self.kept, number, keys);
        Ok(())
    }

    /// Forgets the keys of the commits up to a number. It costs what it forgets.
    pub fn purge(&mut self, to: u64)
        ensures { self.new ≡ above to self.old }
    {
        drop_old(&mut self.latest, &mut self.kept, to);
    }

    // The greatest commit whose keys touch these, with the counter made that nobody reads.
    fn touched<L: Ledger>(&self, keys: &KeySet, blank: Blank) -> Option<u64>
        requires name { blank.name ≡ L.name }
        requires parts { blank.parts ≡ L.parts }
        requires some { 0 < blank.parts }
        ensures { result ≡ latest_touch self.now keys.now.entries }
    {
        let mut steps = Steps::<L>::new(blank);
        self.met(Relation::Touch, keys, &mut steps)
    }

    // The greatest commit whose keys are so related to these.
    fn met<L: Ledger>(&self, relation: Relation, keys: &KeySet, steps: &mut Steps<L>) -> Option<u64>
        ensures latest { result ≡ latest (meets (kind_test relation) keys.now.entries) self.now }
        ensures most { steps.new ≤ steps.old + 5 * len keys.now }
        ensures conflict { relation ≡ Conflict → steps.new ≤ steps.old + 4 * len keys.now }
    {
        let mut latest = None;
        for (parts, kind) in keys.as_slice() {
            latest = greater(latest, self.met_by(relation, parts, *kind, steps));
        }
        latest
    }

    // The greatest commit whose keys are so related to this one.
    fn met_by<L: Ledger>(
        &self,
        relation: Relation,
        parts: &Parts,
        kind: Kind,
        steps: &mut Steps<L>,
    ) -> Option<u64>
        ensures latest { result
            ≡ latest (meets (kind_test relation) ((parts.now, kind) ∷ [])) self.now }
        ensures most { steps.new ≤ steps.old + 5 }
        ensures conflict { relation ≡ Conflict → steps.new ≤ steps.old + 4 }
    {
        let own = self.met_at(relation, *parts, kind, steps);
        let at_table = match parts.row {
            Some(_) => self.met_at(relation, parts.table_parts(), Kind::Shared, steps),
            None => None,
        };
        greater(own, at_table)
    }

    // The greatest commit that has at these parts a kind that is so related to this one.
    fn met_at<L: Ledger>(
        &self,
        relation: Relation,
        parts: Parts,
        kind: Kind,
        steps: &mut Steps<L>,
    ) -> Option<u64>
        ensures latest { result
            ≡ latest (pair_meets (kind_test relation) (parts, kind)) self.now }
        ensures steps { steps.new ≡ steps.old + kinds_met relation kind }
    {
        let shared = self.met_if(relation, parts, Kind::Shared, kind, steps);
        let update = self.met_if(relation, parts, Kind::Update, kind, steps);
        let exclusive = self.met_if(relation, parts, Kind::Exclusive, kind, steps);
        greater(shared, greater(update, exclusive))
    }

    // The greatest commit that has the first kind at these parts, where the two are so related.
    fn met_if<L: Ledger>(
        &self,
        relation: Relation,
        parts: Parts,
        one: Kind,
        other: Kind,
        steps: &mut Steps<L>,
    ) -> Option<u64>
        ensures latest { result ≡ cond (kind_test relation one other)
            (latest (is_at (record { parts = parts; kind = one })) self.now) None }
        ensures steps { steps.new ≡ steps.old + one_if (kind_test relation one other) }
    {
        if are_related(relation, one, other) {
            self.look_up(Pair { parts, kind: one }, steps)
        } else {
            None
        }
    }

    // The greatest commit that has this kind at these parts: the only look-up.
    fn look_up<L: Ledger>(&self, pair: Pair, steps: &mut Steps<L>) -> Option<u64>
        ensures latest { result ≡ latest (is_at pair) self.now }
        ensures steps { steps.new ≡ steps.old + 1 }
    {
        steps.tick();
        self.latest.get(&pair).copied()
    }
}

// Whether two kinds are so related.
fn are_related(relation: Relation, one: Kind, other: Kind) -> bool
    ensures { result ≡ kind_test relation one other }
{
    match relation {
        Relation::Conflict => one.conflicts(other),
        Relation::Touch => one.touches(other),
    }
}

// The greater of two numbers that there may be.
fn greater(one: Option<u64>, other: Option<u64>) -> Option<u64>
    ensures { result ≡ greater one other }
{
    match (one, other) {
        (None, other) => other,
        (one, None) => one,
        (Some(one), Some(other)) => Some(one.max(other)),
    }
}

// The number, where it is above.
fn only_above(above: u64, number: Option<u64>) -> Option<u64>
    ensures { result ≡ only_above above number }
{
    match number {
        Some(number) if number > above => Some(number),
        _ => None,
    }
}
