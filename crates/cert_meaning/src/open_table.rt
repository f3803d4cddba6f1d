ghost use Rattle.std.specs.Prelude.{◌≡◌, ◌≤◌, ◌++◌, ◌∷◌, [], is_some, unwrap_or, OnOk, OnErr};
ghost use Rattle.std.specs.Option.{option_copied};
ghost use Rattle.finite_map.specs.FiniteMap.{empty, get, insert, len, remove, retain_keys};
ghost use Rattle.key_sets.specs.Keys.{LIMIT};
ghost use Rattle.cert_meaning.specs.State.{fragments_but, whole_keys};
ghost use Rattle.cert_meaning.specs.Verdict.{greatest_touching};
ghost use Rattle.cert_meaning.specs.Fold.{is_of};

mod parts;
mod search;
mod whole;

use crate::fragments::greatest_touching;
use crate::gathered::Gathered;
use crate::items::Fragment;
use key_sets::KeySet;
use std::alloc::Global;
use std::collections::BTreeMap;
use std::marker::Model;
use wsrep_base::{NoMemory, TrxId};

/// The open transactions, each with its passed fragments.
#[derive(Drop)]
pub struct OpenTable {
    open: BTreeMap<TrxId, Gathered>,
}

impl Model for OpenTable {
    ghost use Rattle.std.specs.Prelude.{List};
    ghost use Rattle.finite_map.specs.FiniteMap.{FiniteMap, from_entries};
    ghost use Rattle.wsrep_base.specs.Trx.{trx_cmp};
    ghost use Rattle.cert_meaning.specs.declared.items.Fragment.{Fragment};

    ghost Value = { FiniteMap trx_cmp (List Fragment) };

    ghost view = { λ table. from_entries table.open.entries };
}

impl OpenTable {
    /// No transaction. It takes no memory.
    pub fn new(alloc: Global) -> OpenTable
        ensures { result ≡ empty }
    {
        OpenTable {
            open: BTreeMap::new(alloc),
        }
    }

    /// How many are open.
    pub fn len(&self) -> usize
        ensures { result ≡ len self.now }
    {
        self.open.len()
    }

    /// Whether the transaction is open.
    pub fn is_open(&self, trx: TrxId) -> bool
        ensures { result ≡ is_some (get self.now trx) }
    {
        self.open.contains_key(&trx)
    }

    /// The fragments of a transaction, none where it is not open.
    pub fn fragments(&self, trx: TrxId) -> &[Fragment]
        ensures { result.now ≡ unwrap_or (get self.now trx) [] }
    {
        match self.gathered(trx) {
            Some(gathered) => gathered.fragments(),
            None => &[],
        }
    }

    // The transaction, where it is open.
    fn gathered(&self, trx: TrxId) -> Option<&Gathered>
        ensures { option_copied result ≡ get self.now trx }
    {
        self.open.get(&trx)
    }

    /// Adds a fragment to its transaction, which then is open.
    pub fn add(&mut self, alloc: Global, trx: TrxId, fragment: Fragment) -> Result<(), NoMemory>
        requires { len (whole_keys (unwrap_or (get self.old trx) []) fragment.keys) ≤ LIMIT }
        ensures ok { OnOk result
            (self.new ≡ insert self.old trx (unwrap_or (get self.old trx) [] ++ fragment ∷ [])) }
        ensures err { OnErr result (self.new ≡ self.old) }
    {
        match self.open.get_mut(&trx) {
            Some(gathered) => gathered.add(alloc, fragment),
            None => {
                let mut gathered = Gathered::new(alloc);
                gathered.add(alloc, fragment)?;
                self.open.insert(trx, gathered)?;
                Ok(())
            }
        }
    }

    /// The transaction is open no longer.
    pub fn close(&mut self, trx: TrxId)
        ensures { self.new ≡ remove self.old trx }
    {
        let _ = self.open.remove(&trx);
    }

    /// Only transactions of these members stay.
    pub fn keep_of(&mut self, members: &[u32])
        ensures { self.new ≡ retain_keys self.old (is_of members.now) }
    {
        self.open.retain(|trx, _| members.contains(&trx.member));
    }

    /// The greatest fragment of another transaction whose keys touch. It costs all fragments.
    pub fn held_by(&self, keys: &KeySet, other_than: TrxId) -> Option<u64>
        ensures { result ≡ greatest_touching (fragments_but self.now other_than) keys.now }
    {
        let mut greatest = None;
        for (other, gathered) in &self.open {
            if *other != other_than {
                greatest = greatest_touching(greatest, gathered.fragments(), keys);
            }
        }
        greatest
    }
}
