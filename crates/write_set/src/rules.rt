//! The rules that a write set meets.

ghost use Rattle.std.specs.Prelude.{◌≡◌, ◌≤◌, ◌<◌, length, IfSome};
ghost use Rattle.std.specs.List.{list_all};
ghost use Rattle.finite_map.specs.FiniteMap.{len};
ghost use Rattle.write_set.specs.Rules.{flags_fit, rollback_is_bare, row_fits, keys_fit, place_fits, op_fits, ops_fit, is_exclusive, is_update_kind, is_update, is_covered, uncovered_from, obeys};

use crate::changes::named;
use crate::names::{NameRole, is_name};
use crate::write_set::WriteSet;
use key_sets::{KeySet, Kind, Parts, PartsTest};
use row_model::{Op, RowId};

/// The flag of a transaction's first write set.
pub const START: u8 = 1;

/// The flag of a commit.
pub const END: u8 = 2;

/// The flag of a rollback, which stands alone.
pub const ROLLBACK: u8 = 4;

/// The most changes of a write set, and of a transaction.
pub const MOST_OPS: usize = 8192;

/// Whether the flags and the fragment number go together.
pub(crate) fn flags_fit(flags: u8, fragment: u32) -> bool
    ensures { result ≡ flags_fit flags fragment }
{
    if flags == ROLLBACK {
        fragment == 0
    } else if flags > START + END {
        false
    } else if fragment == 0 {
        flags == START || flags == START + END
    } else {
        flags == 0 || flags == END
    }
}

fn rollback_is_bare(flags: u8, keys: usize, ops: usize) -> bool
    ensures { result ≡ rollback_is_bare flags keys ops }
{
    flags != ROLLBACK || (keys == 0 && ops == 0)
}

fn row_fits(row: &Option<[u8; 16]>) -> bool
    ensures { result ≡ row_fits row.now }
{
    match row {
        Some(name) => is_name(NameRole::KeyRow, name),
        None => true,
    }
}

// Whether the names of parts have their form.
struct NamesFit;

impl PartsTest for NamesFit {
    ghost use Rattle.write_set.specs.Rules.{parts_fit};

    ghost admits = { λ _ parts. parts_fit parts };

    fn admits(&self, parts: &Parts) -> bool {
        is_name(NameRole::KeyTable, &parts.table) && row_fits(&parts.row)
    }
}

fn keys_fit(keys: &KeySet) -> bool
    ensures { result ≡ keys_fit keys.now }
{
    keys.all(&NamesFit)
}

fn place_fits(id: &RowId) -> bool
    ensures { result ≡ place_fits id.now }
{
    is_name(NameRole::ChangeTable, &id.table) && is_name(NameRole::ChangeRow, &id.row)
}

fn op_fits(op: &Op) -> bool
    ensures { result ≡ op_fits op.now }
{
    match op {
        Op::Insert(id, _) => place_fits(id),
        Op::Update(id, change) => place_fits(id) && named(change) != 0,
        Op::Delete(id) => place_fits(id),
    }
}

fn all_ops_fit(ops: &[Op]) -> bool
    ensures { result ≡ list_all op_fits ops.now }
{
    ops.iter().all(|op| op_fits(op))
}

fn ops_fit(ops: &[Op]) -> bool
    ensures { result ≡ ops_fit ops.now }
{
    ops.len() <= MOST_OPS && all_ops_fit(ops)
}

fn is_exclusive(kind: Option<Kind>) -> bool
    ensures { result ≡ is_exclusive kind }
{
    match kind {
        Some(Kind::Exclusive) => true,
        Some(Kind::Update) => false,
        Some(Kind::Shared) => false,
        None => false,
    }
}

fn is_update_kind(kind: Option<Kind>) -> bool
    ensures { result ≡ is_update_kind kind }
{
    match kind {
        Some(Kind::Update) => true,
        Some(Kind::Exclusive) => false,
        Some(Kind::Shared) => false,
        None => false,
    }
}

fn is_update(op: &Op) -> bool
    ensures { result ≡ is_update op.now }
{
    match op {
        Op::Insert(_, _) => false,
        Op::Update(_, _) => true,
        Op::Delete(_) => false,
    }
}

// Whether a key covers the change.
fn is_covered(keys: &KeySet, op: &Op) -> bool
    ensures { result ≡ is_covered keys.now op.now }
{
    let id = op.id();
    let (table, row) = (id.table, id.row);
    let own = keys.kind_at(&Parts {
        table,
        row: Some(row),
    });
    let whole = keys.kind_at(&Parts { table, row: None });
    is_exclusive(own) || (is_update(op) && is_update_kind(own)) || is_exclusive(whole)
}

/// The first change that no key covers, counted from 0.
pub(crate) fn first_uncovered(keys: &KeySet, ops: &[Op]) -> Option<usize>
    ensures { result ≡ uncovered_from 0 keys.now ops.now }
{
    for (index, op) in ops.iter().enumerate() {
        if !is_covered(keys, op) {
            return Some(index);
        }
    }
    None
}

/// Whether the write set meets the rules, so that it has a spelling.
#[tactic(auto, unfolding(crate::specs::Rules::obeys))]
pub fn is_valid(w: &WriteSet) -> bool
    ensures { result ≡ obeys w.now }
{
    let ops = w.ops.as_slice();
    flags_fit(w.flags, w.fragment)
        && rollback_is_bare(w.flags, w.keys.len(), ops.len())
        && w.keys.len() <= KeySet::LIMIT
        && keys_fit(&w.keys)
        && ops_fit(ops)
        && first_uncovered(&w.keys, ops).is_none()
}
