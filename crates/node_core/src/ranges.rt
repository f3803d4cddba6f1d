ghost use Rattle.std.specs.Prelude.{◌≡◌, ◌<◌, ◌≤◌, ◌^◌, IfSome, length};
ghost use Rattle.finite_map.specs.FiniteMap.{len};
ghost use Rattle.std.specs.List.{AllByRecursion};
ghost use Rattle.write_set.specs.Rules.{OpInRange, IsCell, place_in_range};
ghost use Rattle.node_meaning.specs.Facts.{ProgressInRange};

use client_trx::Trx;
use node_meaning::Progress;
use node_parts::Slots;
use row_model::{Change, Op, RowId};
use wsrep_base::StateId;

// The functions here do nothing: their contracts say what the types of values say of them.

/// A node's numbers fit their types.
pub(crate) fn progress_in_range(at: &Progress)
    ensures { ProgressInRange at.now }
{
    fits_32(at.member);
    fits_64(at.committed);
    fits_64(at.serial);
    fits_64(at.begin);
}

/// There are few live transactions, as sessions are.
pub(crate) fn few_live(live: &Slots<Trx>)
    ensures { len live.now ≤ 33 }
{
    let _end = live.session_end();
}

/// An id has sixteen bytes.
pub(crate) fn id_in_range(id: &StateId)
    ensures { length id.now ≡ 16 }
{
    let _bytes = id.bytes();
}

/// The names of a place have 16 bytes each.
pub(crate) fn place_in_range(id: &RowId)
    ensures { place_in_range id.now }
{
    name_in_range(&id.table);
    name_in_range(&id.row);
}

/// A change has at most 8 values, and each fits its type.
pub(crate) fn change_in_range(change: &Option<Op>)
    ensures { IfSome change.now OpInRange }
{
    match change {
        Some(Op::Insert(id, row)) => {
            place_in_range(id);
            values_in_range(row.values());
        }
        Some(Op::Update(id, change)) => {
            place_in_range(id);
            cells_in_range(change);
        }
        Some(Op::Delete(id)) => place_in_range(id),
        None => {}
    }
}

fn fits_32(n: u32)
    ensures { n < 2 ^ 32 }
{
    let _ = n;
}

fn fits_64(n: u64)
    ensures { n < 2 ^ 64 }
{
    let _ = n;
}

fn name_in_range(name: &[u8; 16])
    ensures { length name.now ≡ 16 }
{
    let _len = name.len();
}

fn values_in_range(values: &[u64])
    ensures { AllByRecursion (λ value. value < 2 ^ 64) values.now }
{
    for value in values {
        fits_64(*value);
    }
}

// A change has 8 cells, and each fits its type.
fn cells_in_range(change: &Change)
    ensures len { length change.now ≡ 8 }
    ensures cells { AllByRecursion IsCell change.now }
{
    for cell in change {
        if let Some(value) = cell {
            fits_64(*value);
        }
    }
}
