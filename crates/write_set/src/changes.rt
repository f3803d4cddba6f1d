//! Changes: reading them and writing them.

ghost use Rattle.std.specs.Prelude.{◌≡◌, ◌≤◌, ◌++◌, ◌∷◌, [], length, take, OnOk, IfOk};
ghost use Rattle.std.specs.Int.{w64};
ghost use Rattle.write_set.specs.Reading.{Gives, place_at, count_at, many_at, number_at, values_at, some_columns_at, columns_at, op_body_at, op_at, ops_at};
ghost use Rattle.write_set.specs.Spelling.{place_text, values_text, row_values_text, named, columns_text, change_text, op_text, ops_text};

use crate::fault::{Cursor, WsFault};
use crate::names::{NameRole, name_of, put_name};
use crate::rules::MOST_OPS;
use row_model::{Change, Op, OpList, Row, RowId};
use std::alloc::Global;
use wsrep_base::{ByteList, NoMemory, put_u32, put_u64};

#[tactic(auto, unfolding(crate::specs::Reading::place_at))]
fn place_of<'a>(cursor: Cursor<'a>) -> Result<(RowId, Cursor<'a>), WsFault>
    ensures { Gives (λ x. (x.0, x.1)) result (place_at cursor.entry) }
{
    let (table, after) = name_of(NameRole::ChangeTable, cursor)?;
    let (row, after) = name_of(NameRole::ChangeRow, after)?;
    Ok((RowId { table, row }, after))
}

// Reads a number of values or columns, 1 to 8.
#[tactic(auto, unfolding(crate::specs::Reading::count_at))]
fn count_of<'a>(cursor: Cursor<'a>) -> Result<(u8, Cursor<'a>), WsFault>
    ensures read { Gives (λ x. (x.0, x.1)) result (count_at cursor.entry) }
    ensures some { IfOk result (λ x. 1 ≤ x.0) }
    ensures few { IfOk result (λ x. x.0 ≤ 8) }
{
    let at = cursor.at();
    let (count, after) = cursor.number8()?;
    if count == 0 || count > 8 {
        return Err(WsFault::BadChange(at));
    }
    Ok((count, after))
}

// Reads so many values into the first cells.
fn some_values_of<'a>(count: u8, cursor: Cursor<'a>) -> Result<([u64; 8], Cursor<'a>), WsFault>
    requires { count ≤ 8 }
    ensures { Gives (λ x. (take count x.0, x.1)) result
        (many_at (number_at w64) count cursor.entry) }
{
    let mut cells = [0; 8];
    let mut rest = cursor;
    for at in 0..count {
        let (value, after) = match rest.number64() {
            Ok(number) => number,
            Err(fault) => return Err(fault),
        };
        cells[usize::from(at)] = value;
        rest = after;
    }
    Ok((cells, rest))
}

// The row of the first cells.
fn row_of_cells(count: u8, cells: &[u64; 8]) -> Row
    requires some { 1 ≤ count }
    requires few { count ≤ 8 }
    ensures { result ≡ take count cells.now }
{
    match Row::of(&cells[..usize::from(count)]) {
        Some(row) => row,
        None => unreachable!(),
    }
}

/// Reads the number of values of a row, 1 to 8, and the values.
#[tactic(auto, unfolding(crate::specs::Reading::values_at))]
pub fn values_of<'a>(cursor: Cursor<'a>) -> Result<(Row, Cursor<'a>), WsFault>
    ensures { Gives (λ x. (x.0, x.1)) result (values_at cursor.entry) }
{
    let (count, after) = count_of(cursor)?;
    let (cells, after) = some_values_of(count, after)?;
    Ok((row_of_cells(count, &cells), after))
}

// Reads so many columns in rising order.
fn some_columns_of<'a>(count: u8, cursor: Cursor<'a>) -> Result<(Change, Cursor<'a>), WsFault>
    ensures { Gives (λ x. (x.0, x.1)) result (some_columns_at count 0 cursor.entry) }
{
    let mut change = [None; 8];
    let mut last = 0;
    let mut rest = cursor;
    for _ in 0..count {
        let at = rest.at();
        let (column, after) = match rest.number8() {
            Ok(number) => number,
            Err(fault) => return Err(fault),
        };
        if column == 0 || column > 8 {
            return Err(WsFault::BadChange(at));
        }
        if column <= last {
            return Err(WsFault::NotCanonical(at));
        }
        let (value, after) = match after.number64() {
            Ok(number) => number,
            Err(fault) => return Err(fault),
        };
        change[usize::from(column) - 1] = Some(value);
        last = column;
        rest = after;
    }
    Ok((change, rest))
}

#[tactic(auto, unfolding(crate::specs::Reading::columns_at))]
fn columns_of<'a>(cursor: Cursor<'a>) -> Result<(Change, Cursor<'a>), WsFault>
    ensures { Gives (λ x. (x.0, x.1)) result (columns_at cursor.entry) }
{
    let (count, after) = count_of(cursor)?;
    some_columns_of(count, after)
}

/// Reads what stands behind the place of a row, in a change with this tag.
pub fn op_body_of<'a>(tag: u8, id: RowId, cursor: Cursor<'a>) -> Result<(Op, Cursor<'a>), WsFault>
    ensures { Gives (λ x. (x.0, x.1)) result (op_body_at tag id cursor.entry) }
{
    if tag == 1 {
        let (row, after) = values_of(cursor)?;
        Ok((Op::Insert(id, row), after))
    } else if tag == 2 {
        let (change, after) = columns_of(cursor)?;
        Ok((Op::Update(id, change), after))
    } else {
        Ok((Op::Delete(id), cursor))
    }
}

#[tactic(auto, unfolding(crate::specs::Reading::op_at))]
fn op_of<'a>(cursor: Cursor<'a>) -> Result<(Op, Cursor<'a>), WsFault>
    ensures { Gives (λ x. (x.0, x.1)) result (op_at cursor.entry) }
{
    let at = cursor.at();
    let (tag, after) = cursor.number8()?;
    if tag == 0 || tag > 3 {
        return Err(WsFault::BadChange(at));
    }
    let (id, after) = place_of(after)?;
    op_body_of(tag, id, after)
}

fn some_ops_of<'a>(
    alloc: Global,
    count: u32,
    cursor: Cursor<'a>,
) -> Result<(OpList, Cursor<'a>), WsFault>
    ensures { Gives (λ x. (x.0, x.1)) result (many_at op_at count cursor.entry) }
{
    let mut ops = OpList::new(alloc);
    let mut rest = cursor;
    for _ in 0..count {
        let (op, after) = match op_of(rest) {
            Ok(op) => op,
            Err(fault) => return Err(fault),
        };
        match ops.push(op) {
            Ok(()) => {}
            Err(_) => return Err(WsFault::NoMemory),
        }
        rest = after;
    }
    Ok((ops, rest))
}

/// Reads the number of changes, and the changes. A rollback, and whether it has a key, bear on
/// the flags alone.
#[tactic(auto, unfolding(crate::specs::Reading::ops_at))]
pub(crate) fn ops_of<'a>(
    alloc: Global,
    rollback: bool,
    keyed: bool,
    cursor: Cursor<'a>,
) -> Result<(OpList, Cursor<'a>), WsFault>
    ensures { Gives (λ x. (x.0, x.1)) result (ops_at rollback keyed cursor.entry) }
{
    let at = cursor.at();
    let (count, after) = cursor.number32()?;
    if rollback && (keyed || count != 0) {
        return Err(WsFault::BadFlags);
    }
    if count as usize > MOST_OPS {
        return Err(WsFault::TooMany(at));
    }
    some_ops_of(alloc, count, after)
}

/// Appends the names of a row's table and of the row. Where it fails, some of it may stand there.
pub fn put_place(out: &mut ByteList, id: &RowId) -> Result<(), NoMemory>
    ensures { OnOk result (out.new ≡ out.old ++ place_text id.now) }
{
    put_name(out, &id.table)?;
    put_name(out, &id.row)
}

/// Appends the number of a row's values, and the values. Where it fails, some of it may stand
/// there.
pub fn put_row_values(out: &mut ByteList, row: &Row) -> Result<(), NoMemory>
    ensures { OnOk result (out.new ≡ out.old ++ row_values_text row.now) }
{
    let values = row.values();
    out.push(values.len() as u8)?;
    for value in values {
        put_u64(out, *value)?;
    }
    Ok(())
}

/// How many columns a change names.
pub(crate) fn named(change: &Change) -> u8
    ensures count { result ≡ named change.now }
    ensures few { result ≤ 8 }
{
    let mut count = 0;
    for cell in change {
        match cell {
            Some(_) => count += 1,
            None => {}
        }
    }
    count
}

fn put_column(out: &mut ByteList, column: u8, cell: Option<u64>) -> Result<(), NoMemory>
    ensures { OnOk result (out.new ≡ out.old ++ columns_text column (cell ∷ [])) }
{
    match cell {
        Some(value) => {
            out.push(column)?;
            put_u64(out, value)
        }
        None => Ok(()),
    }
}

fn put_change(out: &mut ByteList, change: &Change) -> Result<(), NoMemory>
    ensures { OnOk result (out.new ≡ out.old ++ change_text change.now) }
{
    out.push(named(change))?;
    let mut column = 1;
    for cell in change {
        put_column(out, column, *cell)?;
        column += 1;
    }
    Ok(())
}

fn put_op(out: &mut ByteList, op: &Op) -> Result<(), NoMemory>
    ensures { OnOk result (out.new ≡ out.old ++ op_text op.now) }
{
    match op {
        Op::Insert(id, row) => {
            out.push(1)?;
            put_place(out, id)?;
            put_row_values(out, row)
        }
        Op::Update(id, change) => {
            out.push(2)?;
            put_place(out, id)?;
            put_change(out, change)
        }
        Op::Delete(id) => {
            out.push(3)?;
            put_place(out, id)
        }
    }
}

/// Appends the number of changes, and the changes. Where it fails, some of it may stand there.
pub fn put_all_ops(out: &mut ByteList, ops: &[Op]) -> Result<(), NoMemory>
    requires { length ops.now ≤ MOST_OPS }
    ensures { OnOk result (out.new ≡ out.old ++ ops_text ops.now) }
{
    put_u32(out, ops.len() as u32)?;
    for op in ops {
        put_op(out, op)?;
    }
    Ok(())
}
