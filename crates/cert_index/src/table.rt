//! The table of the latest commits and the list of the keys that are kept, changed together.
ghost use Rattle.std.specs.Prelude.{◌≡◌, ◌+◌, ◌*◌, ◌<◌, ◌≤◌, ◌++◌, ◌∷◌, cond, length, Some};
ghost use Rattle.std.specs.Option.{IfSome, IfNone};
ghost use Rattle.std.specs.HashMap.{spare};
ghost use Rattle.std.specs.Map.{lookup};
ghost use Rattle.std.specs.VecDeque.{deque_len, deque_capacity};
ghost use Rattle.cert_index.specs.Index.{above, entries_of, only_above, AreUpTo};
ghost use Rattle.cert_index.specs.Pairs.{is_of, pair_eq, table_pair_of};
ghost use Rattle.cert_index.specs.Table.{is_old, BeginsAbove, Finds};
ghost use Rattle.cert_index.specs.declared.pair.Pair.{Pair};

use crate::entry::Entry;
use crate::pair::Pair;
use key_sets::{Kind, Parts};
use std::collections::{HashMap, VecDeque};

/// Enters the keys of a commit. There is room for them.
pub(crate) fn enter_all(
    latest: &mut HashMap<Pair, u64>,
    kept: &mut VecDeque<Entry>,
    number: u64,
    keys: &[(Parts, Kind)],
)
    requires room { 2 * length keys.now ≤ spare latest.old }
    requires places { deque_len kept.old + length keys.now ≤ deque_capacity kept.old }
    requires up_to { AreUpTo number kept.old.items }
    requires finds { Finds latest.old.entries kept.old.items }
    ensures kept { kept.new.items ≡ kept.old.items ++ entries_of number keys.now }
    ensures finds { Finds latest.new.entries kept.new.items }
{
    for key in keys {
        enter_key(latest, key, number);
        kept.push_back_reserved(Entry { number, key: *key });
    }
}

/// Forgets the keys of the commits up to a number, oldest first.
pub(crate) fn drop_old(latest: &mut HashMap<Pair, u64>, kept: &mut VecDeque<Entry>, to: u64)
    requires { Finds latest.old.entries kept.old.items }
    ensures kept { kept.new.items ≡ above to kept.old.items }
    ensures finds { Finds latest.new.entries kept.new.items }
{
    while let Some(entry) = take_old(kept, to) {
        drop_key(latest, &entry.key, to);
    }
}

// Takes the oldest entry, where its commit is not above the number.
fn take_old(kept: &mut VecDeque<Entry>, to: u64) -> Option<Entry>
    ensures taken { IfSome result (λ entry. kept.old.items ≡ entry ∷ kept.new.items) }
    ensures old { IfSome result (λ entry. entry.number ≤ to) }
    ensures unchanged { IfNone result (kept.new.items ≡ kept.old.items) }
    ensures none { IfNone result (BeginsAbove to kept.old.items) }
{
    match kept.front() {
        Some(oldest) => {
            if oldest.number > to {
                return None;
            }
        }
        None => return None,
    }
    kept.pop_front()
}

// The commit is the latest for a key: for its kind at its parts, and for a row's key also for
// shared at its table. There is room for both.
fn enter_key(latest: &mut HashMap<Pair, u64>, key: &(Parts, Kind), number: u64)
    requires { 2 ≤ spare latest.old }
    ensures latest { (q : Pair) → lookup (pair_eq q) latest.new.entries
        ≡ cond (is_of q key.now) (Some number) (lookup (pair_eq q) latest.old.entries) }
    ensures spare { spare latest.old ≤ spare latest.new + 2 }
{
    let (parts, kind) = *key;
    put_latest(latest, Pair { parts, kind }, number);
    if parts.row.is_some() {
        put_latest(latest, table_pair(&parts), number);
    }
}

// Forgets a key, for its kind at its parts and at its table, where the latest commit there is not
// above the number.
fn drop_key(latest: &mut HashMap<Pair, u64>, key: &(Parts, Kind), to: u64)
    ensures { (q : Pair) → lookup (pair_eq q) latest.new.entries
        ≡ cond (is_of q key.now) (only_above to (lookup (pair_eq q) latest.old.entries))
        (lookup (pair_eq q) latest.old.entries) }
{
    let (parts, kind) = *key;
    drop_latest(latest, Pair { parts, kind }, to);
    if parts.row.is_some() {
        drop_latest(latest, table_pair(&parts), to);
    }
}

// What a key of a row has at its table.
fn table_pair(parts: &Parts) -> Pair
    ensures { result ≡ table_pair_of parts.now }
{
    Pair {
        parts: parts.table_parts(),
        kind: Kind::Shared,
    }
}

// The commit is the latest there. There is room for it.
fn put_latest(latest: &mut HashMap<Pair, u64>, pair: Pair, number: u64)
    requires { 0 < spare latest.old }
    ensures latest { (q : Pair) → lookup (pair_eq q) latest.new.entries
        ≡ cond (pair_eq pair q) (Some number) (lookup (pair_eq q) latest.old.entries) }
    ensures spare { spare latest.old ≤ spare latest.new + 1 }
{
    match latest.insert(pair, number) {
        Ok(_) => {}
        Err(_) => unreachable!(),
    }
}

// Forgets the latest commit there, where it is not above the number.
fn drop_latest(latest: &mut HashMap<Pair, u64>, pair: Pair, to: u64)
    ensures { (q : Pair) → lookup (pair_eq q) latest.new.entries
        ≡ cond (pair_eq pair q) (only_above to (lookup (pair_eq q) latest.old.entries))
        (lookup (pair_eq q) latest.old.entries) }
{
    if is_old(latest.get(&pair).copied(), to) {
        let _ = latest.remove(&pair);
    }
}

// Whether there is a number and it is not above the other.
fn is_old(number: Option<u64>, to: u64) -> bool
    ensures { result ≡ is_old to number }
{
    match number {
        Some(number) => number <= to,
        None => false,
    }
}
