ghost use Rattle.std.specs.Prelude.{◌≡◌, ◌≤◌, [], length, Option, IfSome, IfOk, OnOk, OnErr, IsOk, IsTrue, false};
ghost use Rattle.finite_map.specs.FiniteMap.{empty, len};
ghost use Rattle.key_sets.specs.Keys.{with_key};
ghost use Rattle.key_sets.specs.declared.kind.Kind.{Kind};
ghost use Rattle.write_set.specs.Rules.{parts_fit};
ghost use Rattle.client_trx.specs.KeyedOps.{Keyed, IsFit, IsKeyOf, with_op, with_change, is_over};

use key_sets::{KeySet, Kind, Parts};
use row_model::{Op, OpList};
use std::alloc::Global;
use std::marker::Model;
use write_set::MOST_OPS;
use wsrep_base::NoMemory;

/// Changes and keys of which each change is covered by a key.
#[derive(Drop)]
pub(crate) struct KeyedOps {
    keys: KeySet,
    ops: OpList,
}

impl Model for KeyedOps {
    ghost use Rattle.client_trx.specs.KeyedOps.{Keyed, IsFit};

    ghost Value = { Keyed };

    ghost view = { λ all. record { keys = all.keys; ops = all.ops } };

    ghost invariant = { λ all. IsFit all.keys all.ops };
}

impl KeyedOps {
    /// No key and no change. It takes no memory.
    pub(crate) fn new(alloc: Global) -> Result<KeyedOps, NoMemory>
        ensures value { IfOk result (λ all. all ≡ record { keys = empty; ops = [] }) }
        ensures succeeds { IsOk result }
    {
        Ok(KeyedOps {
            keys: KeySet::new(alloc)?,
            ops: OpList::new(alloc),
        })
    }

    pub(crate) fn keys(&self) -> &KeySet
        ensures value { result.now ≡ self.now.keys }
        ensures fit { IsFit self.now.keys self.now.ops }
    {
        &self.keys
    }

    pub(crate) fn ops(&self) -> &OpList
        ensures value { result.now ≡ self.now.ops }
        ensures fit { IsFit self.now.keys self.now.ops }
    {
        &self.ops
    }

    /// Whether one more key, and the change where there is one, would make it too large.
    pub(crate) fn is_over_with(&self, parts: &Parts, op: &Option<Op>) -> bool
        ensures { (kind : Kind) → result ≡ is_over (with_change self.now parts.now kind op.now) }
    {
        self.keys_with(parts) > KeySet::LIMIT || self.ops_with(op) > MOST_OPS
    }

    fn keys_with(&self, parts: &Parts) -> usize
        ensures { (kind : Kind) → result ≡ len (with_key self.now.keys parts.now kind) }
    {
        if self.keys.kind_at(parts).is_some() {
            self.keys.len()
        } else {
            self.keys.len() + 1
        }
    }

    /// The number of changes, with one more where there is one.
    pub(crate) fn ops_with(&self, op: &Option<Op>) -> usize
        ensures { result ≡ length (with_op self.now.ops op.now) }
    {
        match op {
            Some(_) => self.ops.len() + 1,
            None => self.ops.len(),
        }
    }

    /// One more key, and the change where there is one.
    pub(crate) fn add(&mut self, parts: &Parts, kind: Kind, op: &Option<Op>) -> Result<(), NoMemory>
        requires names { IsTrue (parts_fit parts.now) }
        requires change { IfSome op.now (λ op. IsKeyOf parts.now kind op) }
        requires room { is_over (with_change self.old parts.now kind op.now) ≡ false }
        ensures ok { OnOk result (self.new ≡ with_change self.old parts.now kind op.now) }
        ensures err { OnErr result (self.new ≡ self.old) }
    {
        let count = self.ops.len();
        push_some(&mut self.ops, op)?;
        match self.keys.add(parts, kind) {
            Ok(()) => Ok(()),
            // There was room for the key, so memory ran out.
            Err(_) => {
                self.ops.truncate(count);
                Err(NoMemory)
            }
        }
    }

    /// The keys, and the changes.
    pub(crate) fn into_parts(self) -> (KeySet, OpList)
        ensures value { result ≡ (self.keys, self.ops) }
        ensures fit { IsFit result.0 result.1 }
    {
        (self.keys, self.ops)
    }

    /// The same keys and changes.
    pub(crate) fn copy(&self) -> Result<KeyedOps, NoMemory>
        ensures { IfOk result (λ all. all ≡ self.now) }
    {
        Ok(KeyedOps {
            keys: self.keys.copy()?,
            ops: self.ops.copy()?,
        })
    }
}

fn push_some(ops: &mut OpList, op: &Option<Op>) -> Result<(), NoMemory>
    ensures ok { OnOk result (ops.new ≡ with_op ops.old op.now) }
    ensures err { OnErr result (ops.new ≡ ops.old) }
{
    match op {
        Some(op) => ops.push(*op),
        None => Ok(()),
    }
}
