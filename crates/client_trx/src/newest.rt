ghost use Rattle.std.specs.Prelude.{◌≡◌, [], length, Some, None, IfSome, IfOk, OnOk, OnErr, option_map};
ghost use Rattle.finite_map.specs.FiniteMap.{empty};
ghost use Rattle.client_trx.specs.Newest.{IsReadyIn, with_gain, with_last, settled};

use crate::keyed_ops::KeyedOps;
use key_sets::{Kind, Parts};
use row_model::Op;
use std::alloc::Global;
use wsrep_base::NoMemory;

/// A key of a statement, and its change where there is one.
#[derive(Clone, Copy)]
pub(crate) struct Gain {
    pub(crate) parts: Parts,
    pub(crate) kind: Kind,
    pub(crate) op: Option<Op>,
}

/// What came since a fragment. The last key and change wait beside the others: to put them there
/// takes no memory, and they go to the others before the next ones come.
#[derive(Drop)]
pub(crate) struct Newest {
    keyed: KeyedOps,
    last: Option<Gain>,
}

impl Newest {
    // The last key and change go to the others.
    fn settle(&mut self) -> Result<(), NoMemory>
        requires ready { IsReadyIn self.old }
        ensures ok { OnOk result (self.new ≡ settled self.old) }
        ensures err { OnErr result (self.new ≡ self.old) }
    {
        match self.last {
            Some(last) => {
                self.keyed.add(&last.parts, last.kind, &last.op)?;
                self.last = None;
                Ok(())
            }
            None => Ok(()),
        }
    }

    /// The number of changes.
    pub(crate) fn count(&self) -> usize
        ensures { result ≡ length (with_last self.now.keyed self.now.last).ops }
    {
        match &self.last {
            Some(last) => self.keyed.ops_with(&last.op),
            None => self.keyed.ops().len(),
        }
    }

    /// The keys and changes, in memory of their own.
    pub(crate) fn copied(&self) -> Result<KeyedOps, NoMemory>
        requires ready { IsReadyIn self.now }
        ensures { IfOk result (λ all. all ≡ with_last self.now.keyed self.now.last) }
    {
        let mut all = self.keyed.copy()?;
        match &self.last {
            Some(last) => {
                all.add(&last.parts, last.kind, &last.op)?;
                Ok(all)
            }
            None => Ok(all),
        }
    }

    /// An equal one.
    pub(crate) fn copy(&self) -> Result<Newest, NoMemory>
        ensures { IfOk result (λ same. same ≡ self.now) }
    {
        Ok(Newest {
            keyed: self.keyed.copy()?,
            last: self.last,
        })
    }
}

/// Nothing came since a fragment. It takes no memory.
pub(crate) fn nothing_new(alloc: Global) -> Option<Newest>
    ensures { result ≡ Some (record { keyed = record { keys = empty; ops = [] }; last = None }) }
{
    match KeyedOps::new(alloc) {
        Ok(keyed) => Some(Newest { keyed, last: None }),
        Err(_) => None,
    }
}

/// Makes ready for one more key and change.
pub(crate) fn settle(newest: &mut Option<Newest>) -> Result<(), NoMemory>
    requires ready { IfSome newest.old (λ newest. IsReadyIn newest) }
    ensures ok { OnOk result (newest.new ≡ option_map settled newest.old) }
    ensures err { OnErr result (newest.new ≡ newest.old) }
{
    match newest {
        Some(newest) => newest.settle(),
        None => Ok(()),
    }
}

/// Puts one more key and change beside the others, where a fragment was sent.
pub(crate) fn put_last(newest: &mut Option<Newest>, gain: Gain)
    ensures { newest.new ≡ option_map (with_gain gain) newest.old }
{
    if let Some(newest) = newest {
        newest.last = Some(gain);
    }
}
