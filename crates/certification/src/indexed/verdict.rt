//! The verdict of a write set over a state.
ghost use Rattle.std.specs.Prelude.{◌≡◌, ◌<◌, IfOk};
ghost use Rattle.std.specs.Option.{option_map};
ghost use Rattle.finite_map.specs.FiniteMap.{get};
ghost use Rattle.wsrep_base.specs.declared.ids.TrxId.{TrxId};
ghost use Rattle.cert_meaning.specs.State.{FoldState, fragments_of, last_seen_of};
ghost use Rattle.cert_meaning.specs.Verdict.{conflict_of, conflict_or_held, held_by, is_broken, is_out_of_place, trx_of, verdict};
ghost use Rattle.sr_fragments.specs.OpenSet.{shape_of};

use super::Indexed;
use cert_meaning::{is_rollback, is_start, trx_of};
use key_sets::KeySet;
use sr_fragments::Shape;
use std::marker::Brand;
use std::sync::ledger::{Blank, Ledger};
use write_set::WriteSet;
use wsrep_base::{NoMemory, Steps, Verdict};

impl Indexed {
    /// The verdict of a write set that a member sent: the first line that holds.
    #[tactic(auto, unfolding(cert_meaning::specs::Verdict::verdict))]
    pub(super) fn verdict(&self, member: u32, set: &WriteSet) -> Result<Verdict, NoMemory>
        ensures { IfOk result (λ found. found ≡ verdict self.now member set.now) }
    {
        let Some(serial) = self.members.serial_of(member) else {
            return Ok(Verdict::Stranger);
        };
        if set.member != member {
            return Ok(Verdict::Stranger);
        }
        if set.serial <= serial {
            return Ok(Verdict::Repeat);
        }
        if set.last_seen > self.number {
            return Ok(Verdict::Future);
        }
        if set.last_seen < self.members.floor() {
            return Ok(Verdict::Stale);
        }
        if is_rollback(set) {
            return Ok(Verdict::Pass);
        }
        if self.is_broken(set)? {
            return Ok(Verdict::Broken);
        }
        Ok(self.tested(set))
    }

    // What commits and fragments say of a write set that continues its transaction.
    fn tested(&self, set: &WriteSet) -> Verdict
        ensures { result
            ≡ conflict_or_held (conflict_of self.now set.now.last_seen set.now.keys)
            (held_by self.now (trx_of set.now) set.now.keys) }
    {
        if let Some(commit) = self.conflict(set.last_seen, &set.keys) {
            return Verdict::Conflict(commit);
        }
        match self.held_by(&set.keys, trx_of(set)) {
            Some(fragment) => Verdict::Held(fragment),
            None => Verdict::Pass,
        }
    }

    // Whether it does not continue its transaction where that stands, has seen less than it had,
    // or makes it too large.
    #[tactic(auto, unfolding(cert_meaning::specs::Verdict::is_broken))]
    fn is_broken(&self, set: &WriteSet) -> Result<bool, NoMemory>
        ensures { IfOk result (λ broken. broken ≡ is_broken self.now set.now) }
    {
        let trx = trx_of(set);
        let shape = self.open.shape(trx);
        if is_out_of_place(set, shape) {
            return Ok(true);
        }
        if set.last_seen < last_seen_of(shape) {
            return Ok(true);
        }
        self.open.is_too_large(trx, &set.keys)
    }

    // The greatest commit above what was last seen whose keys conflict.
    fn conflict(&self, last_seen: u64, keys: &KeySet) -> Option<u64>
        ensures { result ≡ conflict_of self.now last_seen keys.now }
    {
        self.conflicting::<Brand>(last_seen, keys, Blank::new(1))
    }

    // The same, with the counter made that nobody reads.
    fn conflicting<L: Ledger>(&self, last_seen: u64, keys: &KeySet, blank: Blank) -> Option<u64>
        requires name { blank.name ≡ L.name }
        requires parts { blank.parts ≡ L.parts }
        requires some { 0 < blank.parts }
        ensures { result ≡ conflict_of self.now last_seen keys.now }
    {
        let mut steps = Steps::<L>::new(blank);
        self.index.conflict(keys, last_seen, &mut steps)
    }
}

// Whether it begins a transaction that is open, or continues one that is not open or stands
// elsewhere.
fn is_out_of_place(set: &WriteSet, shape: Option<Shape>) -> bool
    ensures { (s : FoldState) → shape ≡ option_map shape_of (get s.open_trx (trx_of set.now))
        → result ≡ is_out_of_place s set.now }
{
    if is_start(set) {
        return shape.is_some();
    }
    match shape {
        Some(shape) => u64::from(set.fragment) != shape.fragments,
        None => true,
    }
}

// The last seen of a transaction's last fragment, 0 where it is not open.
fn last_seen_of(shape: Option<Shape>) -> u64
    ensures { (s : FoldState) (trx : TrxId) → shape ≡ option_map shape_of (get s.open_trx trx)
        → result ≡ last_seen_of (fragments_of s trx) }
{
    match shape {
        Some(shape) => shape.last_seen,
        None => 0,
    }
}
