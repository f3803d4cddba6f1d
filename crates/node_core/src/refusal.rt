ghost use Rattle.std.specs.Prelude.{◌≡◌, ℕ, List, length};
ghost use Rattle.node_meaning.specs.Client.{row_reply, missing_column, missing_from, busy_reply};
ghost use Rattle.node_core.specs.Client.{hindrance, of_row};

use row_locks::Holder;
use row_model::{Change, Op, Reply, Row};

/// What a statement meets before it is known whether its transaction grows too large.
#[derive(Clone, Copy)]
pub(crate) struct Met {
    /// The greatest fragment of another open transaction that touches its key.
    pub(crate) held: Option<u64>,
    /// The first other holder whose locks touch its key.
    pub(crate) blocker: Option<Holder>,
    /// The row as its transaction sees it.
    pub(crate) row: Option<Row>,
}

/// Why a statement is refused, whatever its transaction's size: the first that holds.
pub(crate) fn hindrance(met: &Met, change: &Option<Op>) -> Option<Reply>
    ensures { result ≡ hindrance met.now.held met.now.blocker met.now.row change.now }
{
    if let Some(fragment) = met.held {
        return Some(Reply::HeldBy(fragment));
    }
    if let Some(holder) = met.blocker {
        return Some(busy_reply(holder));
    }
    of_row(&met.row, change)
}

fn busy_reply(holder: Holder) -> Reply
    ensures { result ≡ busy_reply holder }
{
    match holder {
        Holder::Session(session) => Reply::Busy(session),
        Holder::Unit(number) => Reply::BusyApply(number),
    }
}

// Why the row as it is refuses a statement.
fn of_row(row: &Option<Row>, change: &Option<Op>) -> Option<Reply>
    ensures { result ≡ of_row row.now change.now }
{
    match (row, change) {
        (Some(_), Some(Op::Insert(_, _))) => Some(Reply::Duplicate),
        (None, Some(Op::Insert(_, _))) => None,
        (None, _) => Some(Reply::NoRow),
        (Some(row), Some(Op::Update(_, change))) => missing_column(row, change).map(
            Reply::NoColumn,
        ),
        (Some(_), _) => None,
    }
}

// The least column that the change names and the row lacks.
fn missing_column(row: &Row, change: &Change) -> Option<u8>
    ensures { result ≡ missing_from 1 (length row.now) change.now }
{
    let width = row.values().len();
    let mut at = 0_usize;
    while at < change.len() {
        if change[at].is_some() && width <= at {
            return Some(at as u8 + 1);
        }
        at += 1;
    }
    None
}

/// The reply to a call that asks for the row.
pub(crate) fn row_reply(row: Option<Row>) -> Reply
    ensures { result ≡ row_reply row }
{
    match row {
        Some(row) => Reply::Row(row),
        None => Reply::NoRow,
    }
}
