//! Write sets as the fold sees them.
ghost use Rattle.std.specs.Prelude.{◌≡◌, IfOk};
ghost use Rattle.write_set.specs.Reading.{decoded};
ghost use Rattle.cert_meaning.specs.Verdict.{is_start, is_end, is_rollback, trx_of};
ghost use Rattle.cert_meaning.specs.Fold.{judged_as, passed};

use bytes::Bytes;
use std::alloc::{AllocError, Global};
use write_set::{END, ROLLBACK, START, WriteSet, WsFault, decode};
use wsrep_base::{Judged, NoMemory, TrxId, Verdict};

/// The write set that the bytes spell. None where they spell none.
pub fn decoded(alloc: Global, body: &Bytes) -> Result<Option<WriteSet>, NoMemory>
    ensures { IfOk result (λ set. set ≡ decoded body.now) }
{
    match decode(alloc, body.as_slice()) {
        Ok(set) => Ok(Some(set)),
        Err(WsFault::NoMemory) => Err(AllocError),
        Err(_) => Ok(None),
    }
}

/// The transaction of a write set.
pub fn trx_of(set: &WriteSet) -> TrxId
    ensures { result ≡ trx_of set.now }
{
    TrxId {
        member: set.member,
        begin: set.begin,
    }
}

/// Whether it is the first of its transaction.
pub fn is_start(set: &WriteSet) -> bool
    ensures { result ≡ is_start set.now }
{
    set.flags == START || set.flags == START + END
}

// Whether it commits its transaction.
fn is_end(set: &WriteSet) -> bool
    ensures { result ≡ is_end set.now }
{
    set.flags == END || set.flags == START + END
}

/// Whether it rolls its transaction back.
pub fn is_rollback(set: &WriteSet) -> bool
    ensures { result ≡ is_rollback set.now }
{
    set.flags == ROLLBACK
}

/// What becomes of a write set by its verdict.
pub fn judged_as(set: &WriteSet, verdict: Verdict) -> Judged
    ensures { result ≡ judged_as set.now verdict }
{
    match verdict {
        Verdict::Pass => passed(set),
        failure => Judged::Fail(failure),
    }
}

// What becomes of a write set that passes.
fn passed(set: &WriteSet) -> Judged
    ensures { result ≡ passed set.now }
{
    if is_rollback(set) {
        Judged::Rollback
    } else if is_end(set) {
        Judged::Commit
    } else {
        Judged::Fragment
    }
}
