ghost use Rattle.std.specs.Prelude.{◌≡◌, ◌<◌, ◌^◌, length, IsTrue};
ghost use Rattle.std.specs.List.{AllByRecursion};
ghost use Rattle.row_model.specs.Names.{call_fits};
ghost use Rattle.order_event.specs.Fits.{act_fits};
ghost use Rattle.order_event.specs.Laws.{AreBytes};
ghost use Rattle.write_set.specs.Rules.{IsCell, place_in_range};
ghost use Rattle.node_meaning.specs.Facts.{CallInRange};
ghost use Rattle.node_laws.specs.Fits.{ActFits};
ghost use Rattle.cluster_core.specs.Orders.{MessageFits};

use order_event::{Act, Message};
use row_model::{Call, Change, RowId};

// The functions here do nothing: their contracts say what the types of values say of them.

/// What is asked of a step, where its names have their form.
pub(crate) fn act_in_range(act: &Act)
    requires { IsTrue (act_fits act.now) }
    ensures { ActFits act.now }
{
    if let Act::Client(_, call) = act {
        call_in_range(call);
    }
}

/// The body of a write set is bytes.
pub(crate) fn message_in_range(message: &Message)
    ensures { MessageFits message.now }
{
    if let Message::Write(body) = message {
        are_bytes(body.as_slice());
    }
}

fn are_bytes(bytes: &[u8])
    ensures { AreBytes bytes.now }
{
    let _len = bytes.len();
}

// The values of a call fit their type.
fn call_in_range(call: &Call)
    requires { IsTrue (call_fits call.now) }
    ensures { CallInRange call.now }
{
    match call {
        Call::Insert(id, row) => {
            place_in_range(id);
            values_in_range(row.values());
        }
        Call::Update(id, change) => {
            place_in_range(id);
            cells_in_range(change);
        }
        Call::Delete(id) | Call::Share(id) | Call::Read(id) => place_in_range(id),
        Call::Begin(_) | Call::Commit | Call::Rollback | Call::Poll => {}
    }
}

// The names of a place have 16 bytes each.
fn place_in_range(id: &RowId)
    ensures { place_in_range id.now }
{
    name_in_range(&id.table);
    name_in_range(&id.row);
}

fn fits_64(n: u64)
    ensures { n < 2 ^ 64 }
{
    let _ = n;
}

fn name_in_range(name: &[u8; 16])
    ensures { length name.now ≡ 16 }
{
    let _len = name.len();
}

fn values_in_range(values: &[u64])
    ensures { AllByRecursion (λ value. value < 2 ^ 64) values.now }
{
    for value in values {
        fits_64(*value);
    }
}

// A change has 8 cells, and each fits its type.
fn cells_in_range(change: &Change)
    ensures len { length change.now ≡ 8 }
    ensures cells { AllByRecursion IsCell change.now }
{
    for cell in change {
        if let Some(value) = cell {
            fits_64(*value);
        }
    }
}
