//! Writing a write set, or a part of one, as bytes.

ghost use Rattle.std.specs.Prelude.{◌≡◌, ◌++◌, ◌≤◌, length, IfOk, OnOk, OnErr, IsTrue};
ghost use Rattle.write_set.specs.Rules.{keys_fit, ops_fit, obeys};
ghost use Rattle.write_set.specs.Spelling.{sender_text, step_text, keys_text, ops_text, spelling};

use crate::changes::put_all_ops;
use crate::keys::put_all_keys;
use crate::write_set::WriteSet;
use bytes::Bytes;
use key_sets::KeySet;
use row_model::OpList;
use std::alloc::Global;
use wsrep_base::{ByteList, NoMemory, put_u32, put_u64};

/// The version of the format.
pub(crate) const VERSION: u8 = 1;

fn put_sender(out: &mut ByteList, w: &WriteSet) -> Result<(), NoMemory>
    ensures { OnOk result (out.new ≡ out.old ++ sender_text w.now) }
{
    out.push(VERSION)?;
    put_u32(out, w.member)?;
    put_u64(out, w.serial)?;
    put_u64(out, w.begin)
}

fn put_step(out: &mut ByteList, w: &WriteSet) -> Result<(), NoMemory>
    ensures { OnOk result (out.new ≡ out.old ++ step_text w.now) }
{
    put_u32(out, w.fragment)?;
    out.push(w.flags)?;
    put_u64(out, w.last_seen)
}

// A write set of few changes has fewer bytes.
const ROOM: usize = 256;

/// The one spelling of a valid write set.
#[tactic(auto, unfolding(crate::specs::Spelling::spelling))]
pub fn encode(alloc: Global, w: &WriteSet) -> Result<Bytes, NoMemory>
    requires { IsTrue (obeys w.now) }
    ensures { IfOk result (λ bytes. bytes ≡ spelling w.now) }
{
    let mut out = ByteList::from(Vec::with_capacity(alloc, ROOM)?);
    put_sender(&mut out, w)?;
    put_step(&mut out, w)?;
    put_all_keys(&mut out, &w.keys)?;
    put_all_ops(&mut out, w.ops.as_slice())?;
    match Bytes::from_vec(out.into_vec()) {
        Ok(bytes) => Ok(bytes),
        Err(_) => Err(NoMemory),
    }
}

/// Appends the number of keys, and the keys in order.
pub fn put_keys(out: &mut ByteList, keys: &KeySet) -> Result<(), NoMemory>
    requires { IsTrue (keys_fit keys.now) }
    ensures ok { OnOk result (out.new ≡ out.old ++ keys_text keys.now) }
    ensures err { OnErr result (out.new ≡ out.old) }
{
    let mut text = ByteList::new(out.alloc());
    put_all_keys(&mut text, keys)?;
    out.extend(text.as_slice())
}

/// Appends the number of changes, and the changes.
pub fn put_ops(out: &mut ByteList, ops: &OpList) -> Result<(), NoMemory>
    requires { IsTrue (ops_fit ops.now) }
    ensures ok { OnOk result (out.new ≡ out.old ++ ops_text ops.now) }
    ensures err { OnErr result (out.new ≡ out.old) }
{
    let mut text = ByteList::new(out.alloc());
    put_all_ops(&mut text, ops.as_slice())?;
    out.extend(text.as_slice())
}
