//! Writing the parts of a state as bytes.
ghost use Rattle.std.specs.Prelude.{◌≡◌, ◌++◌, ◌≤◌, length, IfOk, OnOk};
ghost use Rattle.std.specs.List.{AllByRecursion};
ghost use Rattle.write_set.specs.declared.rules.TheConstants.{MOST_OPS};
ghost use Rattle.state_snapshot.specs.Rules.{AreCounted, OpenIsCounted, Obeys};
ghost use Rattle.state_snapshot.specs.Spelling.{counted_text, trx_text, member_text, row_item_text, commit_text, fragment_text, open_text, numbers_text, head_text, spelling};

use crate::head::{MARK, VERSION};
use bytes::Bytes;
use cert_meaning::{CommitItem, Fragment, MemberItem, OpenItem, StateParts};
use row_model::RowItem;
use std::alloc::Global;
use write_set::{put_all_keys, put_all_ops, put_place, put_row_values};
use wsrep_base::{ByteList, NoMemory, StateId, TrxId, put_u32, put_u64};

fn put_trx(out: &mut ByteList, trx: &TrxId) -> Result<(), NoMemory>
    ensures { OnOk result (out.new ≡ out.old ++ trx_text trx.now) }
{
    put_u32(out, trx.member)?;
    put_u64(out, trx.begin)
}

fn put_member(out: &mut ByteList, item: &MemberItem) -> Result<(), NoMemory>
    ensures { OnOk result (out.new ≡ out.old ++ member_text item.now) }
{
    put_u32(out, item.member)?;
    put_u64(out, item.report)?;
    put_u64(out, item.serial)
}

fn put_members(out: &mut ByteList, items: &[MemberItem]) -> Result<(), NoMemory>
    requires { AreCounted items.now }
    ensures { OnOk result (out.new ≡ out.old ++ counted_text member_text items.now) }
{
    put_u32(out, items.len() as u32)?;
    for item in items {
        put_member(out, item)?;
    }
    Ok(())
}

fn put_row(out: &mut ByteList, item: &RowItem) -> Result<(), NoMemory>
    ensures { OnOk result (out.new ≡ out.old ++ row_item_text item.now) }
{
    put_place(out, &item.id)?;
    put_row_values(out, &item.row)
}

fn put_rows(out: &mut ByteList, items: &[RowItem]) -> Result<(), NoMemory>
    requires { AreCounted items.now }
    ensures { OnOk result (out.new ≡ out.old ++ counted_text row_item_text items.now) }
{
    put_u32(out, items.len() as u32)?;
    for item in items {
        put_row(out, item)?;
    }
    Ok(())
}

fn put_commit(out: &mut ByteList, commit: &CommitItem) -> Result<(), NoMemory>
    ensures { OnOk result (out.new ≡ out.old ++ commit_text commit.now) }
{
    put_u64(out, commit.number)?;
    put_trx(out, &commit.trx)?;
    put_all_keys(out, &commit.keys)
}

fn put_commits(out: &mut ByteList, commits: &[CommitItem]) -> Result<(), NoMemory>
    requires { AreCounted commits.now }
    ensures { OnOk result (out.new ≡ out.old ++ counted_text commit_text commits.now) }
{
    put_u32(out, commits.len() as u32)?;
    for commit in commits {
        put_commit(out, commit)?;
    }
    Ok(())
}

fn put_fragment(out: &mut ByteList, fragment: &Fragment) -> Result<(), NoMemory>
    requires { length fragment.now.ops ≤ MOST_OPS }
    ensures { OnOk result (out.new ≡ out.old ++ fragment_text fragment.now) }
{
    put_u64(out, fragment.number)?;
    put_u64(out, fragment.last_seen)?;
    put_all_keys(out, &fragment.keys)?;
    put_all_ops(out, fragment.ops.as_slice())
}

fn put_fragments(out: &mut ByteList, fragments: &[Fragment]) -> Result<(), NoMemory>
    requires counted { AreCounted fragments.now }
    requires few { AllByRecursion (λ fragment. length fragment.ops ≤ MOST_OPS) fragments.now }
    ensures { OnOk result (out.new ≡ out.old ++ counted_text fragment_text fragments.now) }
{
    put_u32(out, fragments.len() as u32)?;
    for fragment in fragments {
        put_fragment(out, fragment)?;
    }
    Ok(())
}

fn put_open(out: &mut ByteList, item: &OpenItem) -> Result<(), NoMemory>
    requires { OpenIsCounted item.now }
    ensures { OnOk result (out.new ≡ out.old ++ open_text item.now) }
{
    put_trx(out, &item.trx)?;
    put_fragments(out, item.fragments.as_slice())
}

fn put_open_trx(out: &mut ByteList, items: &[OpenItem]) -> Result<(), NoMemory>
    requires counted { AreCounted items.now }
    requires each { AllByRecursion OpenIsCounted items.now }
    ensures { OnOk result (out.new ≡ out.old ++ counted_text open_text items.now) }
{
    put_u32(out, items.len() as u32)?;
    for item in items {
        put_open(out, item)?;
    }
    Ok(())
}

fn put_numbers(out: &mut ByteList, parts: &StateParts) -> Result<(), NoMemory>
    ensures { OnOk result (out.new ≡ out.old ++ numbers_text parts.now) }
{
    put_u64(out, parts.number)?;
    put_u64(out, parts.floor)?;
    put_u32(out, parts.version)
}

fn put_id(out: &mut ByteList, id: StateId) -> Result<(), NoMemory>
    ensures { OnOk result (out.new ≡ out.old ++ id) }
{
    let bytes = id.bytes();
    out.extend(&bytes)
}

fn put_head(out: &mut ByteList, parts: &StateParts, id: StateId) -> Result<(), NoMemory>
    ensures { OnOk result (out.new ≡ out.old ++ head_text parts.now id) }
{
    out.push(MARK)?;
    out.push(VERSION)?;
    put_id(out, id)?;
    put_numbers(out, parts)
}

/// The bytes of the parts of a state that meet the rules.
#[tactic(auto, unfolding(crate::specs::Spelling::spelling))]
pub(crate) fn spelled(alloc: Global, parts: &StateParts, id: StateId) -> Result<Bytes, NoMemory>
    requires { Obeys parts.now }
    ensures { IfOk result (λ bytes. bytes ≡ spelling parts.now id) }
{
    let mut out = ByteList::new(alloc);
    put_head(&mut out, parts, id)?;
    put_members(&mut out, parts.members.as_slice())?;
    put_rows(&mut out, parts.rows.as_slice())?;
    put_commits(&mut out, parts.commits.as_slice())?;
    put_open_trx(&mut out, parts.open_trx.as_slice())?;
    match Bytes::from_vec(out.into_vec()) {
        Ok(bytes) => Ok(bytes),
        Err(_) => Err(NoMemory),
    }
}
