//! The commits of a snapshot.
ghost use Rattle.write_set.specs.Reading.{Gives};
ghost use Rattle.state_snapshot.specs.Reading.{each_at, commit_at, commits_at};

use crate::head::Head;
use cert_meaning::{CommitItem, CommitList};
use std::alloc::Global;
use write_set::{Cursor, WsFault, keys_of};
use wsrep_base::TrxId;

#[tactic(auto, unfolding(crate::specs::Reading::commit_at))]
fn commit_of<'a>(
    alloc: Global,
    most: u64,
    last: u64,
    cursor: Cursor<'a>,
) -> Result<(CommitItem, Cursor<'a>), WsFault>
    ensures { Gives (λ x. ((x.0, x.0.number), x.1)) result (commit_at most last cursor.entry) }
{
    let at = cursor.at();
    let (number, rest) = cursor.number64()?;
    if number <= last || number > most {
        return Err(WsFault::NotCanonical(at));
    }
    let (member, rest) = rest.number32()?;
    let (begin, rest) = rest.number64()?;
    let (keys, rest) = keys_of(alloc, rest)?;
    let commit = CommitItem {
        number,
        trx: TrxId { member, begin },
        keys,
    };
    Ok((commit, rest))
}

fn some_commits_of<'a>(
    alloc: Global,
    head: &Head,
    count: u32,
    cursor: Cursor<'a>,
) -> Result<(CommitList, Cursor<'a>), WsFault>
    ensures { Gives (λ x. (x.0, x.1)) result
        (each_at (commit_at head.now.number) count head.now.floor cursor.entry) }
{
    let mut commits = CommitList::new(alloc);
    let mut last = head.floor;
    let mut rest = cursor;
    for _ in 0..count {
        let (commit, after) = match commit_of(alloc, head.number, last, rest) {
            Ok(commit) => commit,
            Err(fault) => return Err(fault),
        };
        last = commit.number;
        match commits.push(commit) {
            Ok(()) => {}
            Err(_) => return Err(WsFault::NoMemory),
        }
        rest = after;
    }
    Ok((commits, rest))
}

/// Reads the number of commits, and the commits.
#[tactic(auto, unfolding(crate::specs::Reading::commits_at))]
pub(crate) fn commits_of<'a>(
    alloc: Global,
    head: &Head,
    cursor: Cursor<'a>,
) -> Result<(CommitList, Cursor<'a>), WsFault>
    ensures { Gives (λ x. (x.0, x.1)) result (commits_at head.now cursor.entry) }
{
    let (count, rest) = cursor.number32()?;
    some_commits_of(alloc, head, count, rest)
}
