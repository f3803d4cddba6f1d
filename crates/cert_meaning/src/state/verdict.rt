//! The verdict of a write set over a state.
ghost use Rattle.std.specs.Prelude.{◌≡◌, IfOk};
ghost use Rattle.cert_meaning.specs.Verdict.{is_start, trx_of, is_out_of_place, is_broken, conflict_of, held_by, conflict_or_held, verdict};

use super::FoldState;
use crate::fragments::last_seen_of;
use crate::search;
use crate::sets::{is_rollback, is_start, trx_of};
use key_sets::{KeySet, Relation};
use write_set::WriteSet;
use wsrep_base::{NoMemory, Verdict};

impl FoldState {
    // The verdict of a write set that a member sent: the first line that holds.
    #[tactic(auto, unfolding(crate::specs::Verdict::verdict))]
    pub(super) fn verdict(&self, member: u32, set: &WriteSet) -> Result<Verdict, NoMemory>
        ensures { IfOk result (λ found. found ≡ verdict self.now member set.now) }
    {
        let Some(standing) = self.members.get(member) else {
            return Ok(Verdict::Stranger);
        };
        if set.member != member {
            return Ok(Verdict::Stranger);
        }
        if set.serial <= standing.serial {
            return Ok(Verdict::Repeat);
        }
        if set.last_seen > self.number {
            return Ok(Verdict::Future);
        }
        if set.last_seen < self.floor {
            return Ok(Verdict::Stale);
        }
        if is_rollback(set) {
            return Ok(Verdict::Pass);
        }
        if self.is_broken(set)? {
            return Ok(Verdict::Broken);
        }
        Ok(self.tested(set))
    }

    // What commits and fragments say of a write set that continues its transaction.
    fn tested(&self, set: &WriteSet) -> Verdict
        ensures { result
            ≡ conflict_or_held (conflict_of self.now set.now.last_seen set.now.keys)
            (held_by self.now (trx_of set.now) set.now.keys) }
    {
        if let Some(commit) = self.conflict(set.last_seen, &set.keys) {
            return Verdict::Conflict(commit);
        }
        match self.held_by(&set.keys, trx_of(set)) {
            Some(fragment) => Verdict::Held(fragment),
            None => Verdict::Pass,
        }
    }

    // Whether it does not continue its transaction where that stands, has seen less than it had,
    // or makes it too large.
    #[tactic(auto, unfolding(crate::specs::Verdict::is_broken))]
    fn is_broken(&self, set: &WriteSet) -> Result<bool, NoMemory>
        ensures { IfOk result (λ broken. broken ≡ is_broken self.now set.now) }
    {
        if self.is_out_of_place(set) {
            return Ok(true);
        }
        let trx = trx_of(set);
        if set.last_seen < last_seen_of(self.open_trx.fragments(trx)) {
            return Ok(true);
        }
        self.open_trx.is_too_large(self.alloc(), trx, &set.keys)
    }

    // Whether it begins a transaction that is open, or continues one that is not open or stands
    // elsewhere.
    fn is_out_of_place(&self, set: &WriteSet) -> bool
        ensures { result ≡ is_out_of_place self.now set.now }
    {
        let trx = trx_of(set);
        let open = self.open_trx.is_open(trx);
        if is_start(set) {
            return open;
        }
        let passed = self.open_trx.fragments(trx).len();
        !open || u64::from(set.fragment) != passed as u64
    }

    // The greatest commit above what was last seen whose keys conflict. It costs the commits above
    // what was last seen.
    #[tactic(auto, unfolding(crate::specs::Verdict::conflict_of))]
    fn conflict(&self, last_seen: u64, keys: &KeySet) -> Option<u64>
        ensures { result ≡ conflict_of self.now last_seen keys.now }
    {
        search::greatest_related(Relation::Conflict, self.commits.as_slice(), last_seen, keys)
    }
}
