//! Keys: reading them and writing them.

ghost use Rattle.std.specs.Prelude.{◌≡◌, ◌≤◌, ◌++◌, OnOk};
ghost use Rattle.finite_map.specs.FiniteMap.{empty};
ghost use Rattle.key_sets.specs.Keys.{LIMIT};
ghost use Rattle.write_set.specs.Reading.{Gives, is_above, key_at, key_row_at, keys_at, kind_of_byte, some_keys_at, with_read};
ghost use Rattle.write_set.specs.Spelling.{key_text, keys_text, kind_byte, parts_byte, row_text};

use crate::fault::{Cursor, WsFault};
use crate::names::{NameRole, name_of, put_name};
use key_sets::{KeyFault, KeySet, Kind, Parts};
use std::alloc::Global;
use std::cmp::Ordering;
use wsrep_base::{ByteList, NoMemory, put_u32};

fn kind_of_byte(b: u8) -> Kind
    ensures { result ≡ kind_of_byte b }
{
    match b {
        1 => Kind::Shared,
        2 => Kind::Update,
        _ => Kind::Exclusive,
    }
}

// Reads the row of a key with so many parts.
#[tactic(auto, unfolding(crate::specs::Reading::key_row_at))]
fn key_row_of<'a>(parts: u8, cursor: Cursor<'a>) -> Result<(Option<[u8; 16]>, Cursor<'a>), WsFault>
    ensures { Gives (λ x. (x.0, x.1)) result (key_row_at parts cursor.entry) }
{
    if parts == 1 {
        return Ok((None, cursor));
    }
    let (row, after) = name_of(NameRole::KeyRow, cursor)?;
    Ok((Some(row), after))
}

/// Reads one key.
#[tactic(auto, unfolding(crate::specs::Reading::key_at))]
pub fn key_of<'a>(cursor: Cursor<'a>) -> Result<(Parts, Kind, Cursor<'a>), WsFault>
    ensures { Gives (λ x. ((x.0, x.1), x.2)) result (key_at cursor.entry) }
{
    let at = cursor.at();
    let (parts, after) = cursor.number8()?;
    if !(parts == 1 || parts == 2) {
        return Err(WsFault::BadKey(at));
    }
    let at = after.at();
    let (kind, after) = after.number8()?;
    if kind == 0 || kind > 3 {
        return Err(WsFault::BadKind(at));
    }
    let (table, after) = name_of(NameRole::KeyTable, after)?;
    let (row, after) = key_row_of(parts, after)?;
    Ok((Parts { table, row }, kind_of_byte(kind), after))
}

// Whether a key is above the one before it.
fn is_above(before: &Option<Parts>, parts: &Parts) -> bool
    ensures { result ≡ is_above before.now parts.now }
{
    match before {
        Some(last) => matches!(last.cmp(parts), Ordering::Less),
        None => true,
    }
}

fn some_keys_of<'a>(
    alloc: Global,
    count: u32,
    cursor: Cursor<'a>,
) -> Result<(KeySet, Cursor<'a>), WsFault>
    requires { count ≤ LIMIT }
    ensures { Gives (λ x. (x.0, x.1)) result
        (with_read empty (some_keys_at count None cursor.entry)) }
{
    let mut keys = KeySet::new(alloc)?;
    let mut before = None;
    let mut rest = cursor;
    for _ in 0..count {
        let at = rest.at();
        let (parts, kind, after) = match key_of(rest) {
            Ok(key) => key,
            Err(fault) => return Err(fault),
        };
        if !is_above(&before, &parts) {
            return Err(WsFault::NotCanonical(at));
        }
        match keys.add(&parts, kind) {
            Ok(()) => {}
            Err(KeyFault::Full) => unreachable!(),
            Err(KeyFault::NoMemory) => return Err(WsFault::NoMemory),
        }
        before = Some(parts);
        rest = after;
    }
    Ok((keys, rest))
}

/// Reads the number of keys, and the keys.
#[tactic(auto, unfolding(crate::specs::Reading::keys_at))]
pub fn keys_of<'a>(alloc: Global, cursor: Cursor<'a>) -> Result<(KeySet, Cursor<'a>), WsFault>
    ensures { Gives (λ x. (x.0, x.1)) result (keys_at cursor.entry) }
{
    let at = cursor.at();
    let (count, after) = cursor.number32()?;
    if count as usize > KeySet::LIMIT {
        return Err(WsFault::TooMany(at));
    }
    some_keys_of(alloc, count, after)
}

fn parts_byte(row: &Option<[u8; 16]>) -> u8
    ensures { result ≡ parts_byte row.now }
{
    match row {
        Some(_) => 2,
        None => 1,
    }
}

fn kind_byte(kind: Kind) -> u8
    ensures { result ≡ kind_byte kind }
{
    match kind {
        Kind::Shared => 1,
        Kind::Update => 2,
        Kind::Exclusive => 3,
    }
}

fn put_row_name(out: &mut ByteList, row: &Option<[u8; 16]>) -> Result<(), NoMemory>
    ensures { OnOk result (out.new ≡ out.old ++ row_text row.now) }
{
    match row {
        Some(name) => put_name(out, name),
        None => Ok(()),
    }
}

fn put_key(out: &mut ByteList, key: &(Parts, Kind)) -> Result<(), NoMemory>
    ensures { OnOk result (out.new ≡ out.old ++ key_text key.now) }
{
    let (parts, kind) = key;
    out.push(parts_byte(&parts.row))?;
    out.push(kind_byte(*kind))?;
    put_name(out, &parts.table)?;
    put_row_name(out, &parts.row)
}

/// Appends the number of keys, and the keys in order. Where it fails, some of it may stand there.
pub fn put_all_keys(out: &mut ByteList, keys: &KeySet) -> Result<(), NoMemory>
    ensures { OnOk result (out.new ≡ out.old ++ keys_text keys.now) }
{
    put_u32(out, keys.len() as u32)?;
    for key in keys.as_slice() {
        put_key(out, key)?;
    }
    Ok(())
}
