//! One open transaction.
ghost use Rattle.std.specs.Prelude.{◌≡◌, ◌≤◌, ◌++◌, ◌∷◌, [], nat_lt, IfOk, IfSome, OnOk, OnErr};
ghost use Rattle.finite_map.specs.FiniteMap.{len};
ghost use Rattle.key_sets.specs.Keys.{LIMIT, union};
ghost use Rattle.cert_meaning.specs.State.{fragment_keys, whole_keys};
ghost use Rattle.cert_meaning.specs.Whole.{within, whole_of};

use crate::fragments::{add_all, is_too_large, whole_keys, whole_ops};
use crate::items::{Fragment, FragmentList, Whole};
use crate::unions::{union_passes, union_within};
use key_sets::KeySet;
use std::alloc::{AllocError, Global};
use std::marker::Model;
use wsrep_base::NoMemory;

/// The passed fragments of one transaction, oldest first. Their keys are together no more than a
/// set may have, and are kept, so that a fragment is not joined with all before it anew.
#[derive(Drop)]
pub(crate) struct Gathered {
    fragments: Vec<Fragment>,
    // All their keys. None where there was no memory for them: then they are joined when needed.
    keys: Option<KeySet>,
}

impl Model for Gathered {
    ghost use Rattle.std.specs.Prelude.{List};
    ghost use Rattle.cert_meaning.specs.declared.items.Fragment.{Fragment};

    ghost Value = { List Fragment };

    ghost use Rattle.cert_meaning.specs.Whole.{KeepsKeys};

    ghost view = { λ gathered. gathered.fragments.items };

    ghost invariant = { λ gathered. KeepsKeys gathered.fragments.items gathered.keys };
}

impl Gathered {
    /// No fragment. It takes no memory.
    pub(crate) fn new(alloc: Global) -> Gathered
        ensures { result ≡ [] }
    {
        Gathered {
            fragments: Vec::new(alloc),
            keys: None,
        }
    }

    /// These fragments. For more keys than a set may have there is no room.
    pub(crate) fn of(alloc: Global, fragments: FragmentList) -> Result<Gathered, NoMemory>
        ensures { IfOk result (λ gathered. gathered ≡ fragments) }
    {
        let none = KeySet::new(alloc)?;
        let Some(keys) = whole_keys(alloc, fragments.as_slice(), &none)? else {
            return Err(AllocError);
        };
        Ok(Gathered {
            fragments: fragments.into_vec(),
            keys: Some(keys),
        })
    }

    /// The fragments, oldest first.
    pub(crate) fn fragments(&self) -> &[Fragment]
        ensures { result.now ≡ self.now }
    {
        self.fragments.as_slice()
    }

    /// Puts one more fragment behind the others, at the cost of its own keys.
    pub(crate) fn add(&mut self, alloc: Global, fragment: Fragment) -> Result<(), NoMemory>
        requires { len (whole_keys self.old fragment.keys) ≤ LIMIT }
        ensures ok { OnOk result (self.new ≡ self.old ++ fragment ∷ []) }
        ensures err { OnErr result (self.new ≡ self.old) }
    {
        self.fragments.reserve(1)?;
        let kept = self.keys.take();
        self.keys = joined(alloc, kept, self.fragments.as_slice(), &fragment.keys);
        match self.fragments.push(fragment) {
            Ok(()) => {}
            Err(_) => unreachable!(),
        }
        Ok(())
    }

    /// All keys with those of one more write set. None where they pass what a set may have.
    pub(crate) fn whole_keys(
        &self,
        alloc: Global,
        keys: &KeySet,
    ) -> Result<Option<KeySet>, NoMemory>
        ensures { IfOk result (λ whole. whole ≡ within (whole_keys self.now keys.now)) }
    {
        match &self.keys {
            Some(kept) => union_within(kept, keys),
            None => whole_keys(alloc, self.fragments.as_slice(), keys),
        }
    }

    /// Whether there are more keys than a set may have, with those of one more write set. It costs
    /// the keys of that write set.
    pub(crate) fn is_too_large(&self, alloc: Global, keys: &KeySet) -> Result<bool, NoMemory>
        ensures { IfOk result
            (λ large. large ≡ nat_lt LIMIT (len (whole_keys self.now keys.now))) }
    {
        match &self.keys {
            Some(kept) => Ok(union_passes(kept, keys)),
            None => is_too_large(alloc, self.fragments.as_slice(), keys),
        }
    }

    /// All keys and all changes.
    pub(crate) fn whole(&self, alloc: Global) -> Result<Whole, NoMemory>
        ensures { IfOk result (λ whole. whole ≡ whole_of self.now) }
    {
        let ops = whole_ops(alloc, self.fragments.as_slice(), &[])?;
        let none = KeySet::new(alloc)?;
        let Some(keys) = self.whole_keys(alloc, &none)? else {
            unreachable!();
        };
        Ok(Whole { keys, ops })
    }
}

// All keys of the fragments with those of one more. None where there is no memory for them.
fn joined(
    alloc: Global,
    kept: Option<KeySet>,
    fragments: &[Fragment],
    keys: &KeySet,
) -> Option<KeySet>
    requires { IfSome kept (λ all. all ≡ fragment_keys fragments.now) }
    ensures { IfSome result (λ all. all ≡ whole_keys fragments.now keys.now) }
{
    match kept {
        Some(all) => extended(all, keys),
        None => match whole_keys(alloc, fragments, keys) {
            Ok(whole) => whole,
            Err(_) => None,
        },
    }
}

// The set with the keys of the other. None where there is no memory for them, or they are too many.
fn extended(mut all: KeySet, keys: &KeySet) -> Option<KeySet>
    ensures { IfSome result (λ more. more ≡ union all keys.now) }
{
    match add_all(&mut all, keys) {
        Ok(true) => Some(all),
        _ => None,
    }
}
