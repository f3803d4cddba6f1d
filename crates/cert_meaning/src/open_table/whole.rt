//! All that an open transaction has.
ghost use Rattle.std.specs.Prelude.{◌≡◌, [], nat_lt, unwrap_or, IfOk};
ghost use Rattle.std.specs.Option.{option_map};
ghost use Rattle.finite_map.specs.FiniteMap.{get, len};
ghost use Rattle.key_sets.specs.Keys.{LIMIT};
ghost use Rattle.cert_meaning.specs.State.{whole_keys};
ghost use Rattle.cert_meaning.specs.Whole.{within, whole_of};

use super::OpenTable;
use crate::fragments::{is_too_large, whole_keys};
use crate::items::Whole;
use key_sets::KeySet;
use std::alloc::Global;
use wsrep_base::{NoMemory, TrxId};

impl OpenTable {
    /// All keys of a transaction with one more write set. None where they pass what a set may have.
    pub fn whole_keys(
        &self,
        alloc: Global,
        trx: TrxId,
        keys: &KeySet,
    ) -> Result<Option<KeySet>, NoMemory>
        ensures { IfOk result
            (λ whole. whole ≡ within (whole_keys (unwrap_or (get self.now trx) []) keys.now)) }
    {
        match self.gathered(trx) {
            Some(gathered) => gathered.whole_keys(alloc, keys),
            None => whole_keys(alloc, &[], keys),
        }
    }

    /// Whether a transaction with one more write set has more keys than a set may have.
    pub fn is_too_large(&self, alloc: Global, trx: TrxId, keys: &KeySet) -> Result<bool, NoMemory>
        ensures { IfOk result
            (λ large. large
            ≡ nat_lt LIMIT (len (whole_keys (unwrap_or (get self.now trx) []) keys.now))) }
    {
        match self.gathered(trx) {
            Some(gathered) => gathered.is_too_large(alloc, keys),
            None => is_too_large(alloc, &[], keys),
        }
    }

    /// All keys and all changes of a transaction. None where it is not open.
    pub fn whole(&self, alloc: Global, trx: TrxId) -> Result<Option<Whole>, NoMemory>
        ensures { IfOk result (λ whole. whole ≡ option_map whole_of (get self.now trx)) }
    {
        match self.gathered(trx) {
            Some(gathered) => Ok(Some(gathered.whole(alloc)?)),
            None => Ok(None),
        }
    }
}
