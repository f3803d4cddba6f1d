//! Reading a write set, or a part of one, from bytes.

ghost use Rattle.std.specs.Prelude.{◌≡◌, ◌≤◌, ◌++◌, false, List, ℕ, length, drop, Some, IfOk};
ghost use Rattle.wsrep_base.specs.Reading.{Reads};
ghost use Rattle.key_sets.specs.Keys.{Keys};
ghost use Rattle.row_model.specs.declared.ops.Op.{Op};
ghost use Rattle.write_set.specs.declared.write_set.WriteSet.{WriteSet};
ghost use Rattle.write_set.specs.Laws.{AreKeys, AreOps, IsSpelled, StandsBetween, with_rest};
ghost use Rattle.write_set.specs.Rules.{InRange, KeysInRange, OpsInRange};
ghost use Rattle.write_set.specs.Spelling.{keys_text, ops_text};
ghost use Rattle.write_set.specs.Place.{place_in};
ghost use Rattle.write_set.specs.Reading.{Gives, behind, header_at, keys_at, ops_at, finished, read, decoded, begin_of_end, commit_begin};

use crate::changes::ops_of;
use crate::fault::{Cursor, WsFault};
use crate::keys::keys_of;
use crate::rules::{END, ROLLBACK, START, first_uncovered, flags_fit};
use crate::write_set::{Header, WriteSet};
use crate::writing::VERSION;
use key_sets::KeySet;
use row_model::OpList;
use std::alloc::Global;

#[tactic(auto, unfolding(crate::specs::Reading::header_at))]
fn header_of<'a>(cursor: Cursor<'a>) -> Result<(Header, Cursor<'a>), WsFault>
    ensures exact { Reads (λ x. (x.0, x.1)) result (header_at cursor.entry) }
    ensures gives { Gives (λ x. (x.0, x.1)) result (header_at cursor.entry) }
{
    let (version, rest) = cursor.number8()?;
    if version != VERSION {
        return Err(WsFault::BadVersion(version));
    }
    let (member, rest) = rest.number32()?;
    let (serial, rest) = rest.number64()?;
    let (begin, rest) = rest.number64()?;
    let (fragment, rest) = rest.number32()?;
    let (flags, rest) = rest.number8()?;
    if !flags_fit(flags, fragment) {
        return Err(WsFault::BadFlags);
    }
    let (last_seen, rest) = rest.number64()?;
    let header = Header {
        member,
        serial,
        begin,
        fragment,
        flags,
        last_seen,
    };
    Ok((header, rest))
}

// The write set, where each change is covered.
#[tactic(auto, unfolding(crate::specs::Reading::finished))]
fn finished(header: Header, keys: KeySet, ops: OpList) -> Result<WriteSet, WsFault>
    ensures { Gives (λ w. w) result (finished header keys ops) }
{
    match first_uncovered(&keys, ops.as_slice()) {
        Some(index) => Err(WsFault::Uncovered(index)),
        None => Ok(WriteSet {
            member: header.member,
            serial: header.serial,
            begin: header.begin,
            fragment: header.fragment,
            flags: header.flags,
            last_seen: header.last_seen,
            keys,
            ops,
        }),
    }
}

#[tactic(auto, unfolding(crate::specs::Reading::read))]
fn read_all(alloc: Global, bytes: &[u8]) -> Result<WriteSet, WsFault>
    ensures { Gives (λ w. w) result (read bytes.now) }
{
    let (header, rest) = header_of(Cursor::new(bytes, 0))?;
    let (keys, rest) = keys_of(alloc, rest)?;
    let keyed = keys.len() != 0;
    let (ops, rest) = ops_of(alloc, header.flags == ROLLBACK, keyed, rest)?;
    if !rest.is_at_end() {
        return Err(WsFault::Trailing(rest.at()));
    }
    finished(header, keys, ops)
}

/// The write set that the bytes spell, all of the bytes; else the first fault that is met from
/// left to right.
pub fn decode(alloc: Global, bytes: &[u8]) -> Result<WriteSet, WsFault>
    // What is read is valid, and the bytes are its spelling.
    ensures found { IfOk result (λ w. IsSpelled bytes.now w) }
    // A spelling is read, unless memory runs out.
    ensures only { (w : WriteSet) → InRange w → IsSpelled bytes.now w
        → Gives (λ x. x) result (Ok w) }
    // Which fault it is.
    ensures exact { Gives (λ w. w) result (read bytes.now) }
{
    read_all(alloc, bytes)
}

/// The begin number of the transaction whose commit the bytes spell; None where they spell another
/// write set. The fields before the keys are read, and nothing behind them: it takes no memory.
pub fn commit_begin(bytes: &[u8]) -> Option<u64>
    // Of the bytes of a write set it is what the write set says.
    ensures of_set { (w : WriteSet) → decoded bytes.now ≡ Some w
        → result ≡ begin_of_end w.flags w.begin }
    // What it is of any bytes.
    ensures exact { result ≡ commit_begin bytes.now }
{
    header_begin(bytes)
}

#[tactic(auto, unfolding(crate::specs::Reading::commit_begin))]
fn header_begin(bytes: &[u8]) -> Option<u64>
    ensures { result ≡ commit_begin bytes.now }
{
    match header_of(Cursor::new(bytes, 0)) {
        Ok((header, _)) => begin_of_end(header.flags, header.begin),
        Err(_) => None,
    }
}

fn begin_of_end(flags: u8, begin: u64) -> Option<u64>
    ensures { result ≡ begin_of_end flags begin }
{
    if flags == END || flags == START + END {
        Some(begin)
    } else {
        None
    }
}

/// Reads a number of keys and the keys, from place `at` on. Gives them and the place behind them.
pub fn read_keys(alloc: Global, bytes: &[u8], at: usize) -> Result<(KeySet, usize), WsFault>
    requires { at ≤ length bytes.now }
    // The keys stand between the two places.
    ensures found { IfOk result (λ x. AreKeys x.0
        × StandsBetween bytes.now at x.1 (keys_text x.0)) }
    // Keys that stand there are read, unless memory runs out.
    ensures only { (keys : Keys) (rest : List ℕ) → KeysInRange keys → AreKeys keys
        → drop at bytes.now ≡ keys_text keys ++ rest
        → Gives (with_rest bytes.now) result (Ok (keys, rest)) }
    // Which fault it is.
    ensures exact { Gives (λ x. (x.0, x.1)) result (behind (keys_at (place_in bytes.now at))) }
{
    keys_from(alloc, bytes, at)
}

fn keys_from(alloc: Global, bytes: &[u8], at: usize) -> Result<(KeySet, usize), WsFault>
    requires { at ≤ length bytes.now }
    ensures { Gives (λ x. (x.0, x.1)) result (behind (keys_at (place_in bytes.now at))) }
{
    let (keys, rest) = keys_of(alloc, Cursor::new(bytes, at))?;
    Ok((keys, rest.at()))
}

/// Reads a number of changes and the changes, from place `at` on. Gives them and the place behind
/// them.
pub fn read_ops(alloc: Global, bytes: &[u8], at: usize) -> Result<(OpList, usize), WsFault>
    requires { at ≤ length bytes.now }
    // The changes stand between the two places.
    ensures found { IfOk result (λ x. AreOps x.0 × StandsBetween bytes.now at x.1 (ops_text x.0)) }
    // Changes that stand there are read, unless memory runs out.
    ensures only { (ops : List Op) (rest : List ℕ) → OpsInRange ops → AreOps ops
        → drop at bytes.now ≡ ops_text ops ++ rest
        → Gives (with_rest bytes.now) result (Ok (ops, rest)) }
    // Which fault it is.
    ensures exact { Gives (λ x. (x.0, x.1)) result
        (behind (ops_at false false (place_in bytes.now at))) }
{
    ops_from(alloc, bytes, at)
}

fn ops_from(alloc: Global, bytes: &[u8], at: usize) -> Result<(OpList, usize), WsFault>
    requires { at ≤ length bytes.now }
    ensures { Gives (λ x. (x.0, x.1)) result
        (behind (ops_at false false (place_in bytes.now at))) }
{
    let (ops, rest) = ops_of(alloc, false, false, Cursor::new(bytes, at))?;
    Ok((ops, rest.at()))
}
