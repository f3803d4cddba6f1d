//! A state as its parts, from which it is made again.
ghost use Rattle.std.specs.Prelude.{◌≡◌, IfOk};
ghost use Rattle.cert_meaning.specs.State.{RiseWithin};
ghost use Rattle.cert_meaning.specs.Parts.{parts_of, state_of};

use super::FoldState;
use crate::items::{CommitItem, CommitList};
use crate::members::Members;
use crate::open_table::OpenTable;
use crate::parts::StateParts;
use crate::row_table::RowTable;
use std::alloc::Global;
use wsrep_base::NoMemory;

impl FoldState {
    /// The state with these parts. The numbers of the commits rise, and are at most that of the
    /// state. For an open transaction with more keys than a set may have there is no room.
    pub fn of(alloc: Global, parts: StateParts) -> Result<FoldState, NoMemory>
        requires { RiseWithin 0 parts.number parts.commits }
        ensures { IfOk result (λ s. s ≡ state_of parts) }
    {
        let StateParts {
            number,
            floor,
            version,
            members,
            rows,
            commits,
            open_trx,
        } = parts;
        Ok(FoldState {
            number,
            floor,
            version,
            members: Members::of(alloc, members.as_slice())?,
            rows: RowTable::of(alloc, rows.as_slice())?,
            commits: commits.into_vec(),
            open_trx: OpenTable::of(alloc, open_trx)?,
        })
    }

    /// All fields of the state, copied.
    pub fn parts(&self) -> Result<StateParts, NoMemory>
        ensures { IfOk result (λ parts. parts ≡ parts_of self.now) }
    {
        let alloc = self.alloc();
        Ok(StateParts {
            number: self.number,
            floor: self.floor,
            version: self.version,
            members: self.members.items(alloc)?,
            rows: self.rows.items(alloc)?,
            commits: copied(alloc, self.commits.as_slice())?,
            open_trx: self.open_trx.items(alloc)?,
        })
    }
}

// The same commits.
fn copied(alloc: Global, commits: &[CommitItem]) -> Result<CommitList, NoMemory>
    ensures { IfOk result (λ same. same ≡ commits.now) }
{
    let mut same = CommitList::new(alloc);
    for commit in commits {
        let keys = commit.keys.copy()?;
        same.push(CommitItem {
            number: commit.number,
            trx: commit.trx,
            keys,
        })?;
    }
    Ok(same)
}
