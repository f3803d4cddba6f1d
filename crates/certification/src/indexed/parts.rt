//! A state as its parts, from which it is made again.
ghost use Rattle.std.specs.Prelude.{◌≡◌, IfOk};
ghost use Rattle.cert_meaning.specs.State.{Rise, RiseWithin};
ghost use Rattle.cert_meaning.specs.Parts.{members_of, parts_of, state_of};
ghost use Rattle.cert_index.specs.Index.{entered};
ghost use Rattle.view_change.specs.Membership.{IsSettled};
ghost use Rattle.certification.specs.Certifies.{bare};

use super::Indexed;
use cert_index::Index;
use cert_meaning::{CommitItem, CommitList, StateParts};
use row_model::RowList;
use sr_fragments::OpenSet;
use std::alloc::Global;
use std::collections::VecDeque;
use view_change::Members;
use wsrep_base::NoMemory;

impl Indexed {
    /// The state with these parts, without their rows. For an open transaction with more keys than
    /// a set may have there is no room.
    pub(crate) fn of(alloc: Global, parts: StateParts) -> Result<Indexed, NoMemory>
        requires rise { RiseWithin 0 parts.number parts.commits }
        requires settled { IsSettled
            (record { members = members_of parts.members; floor = parts.floor }) }
        ensures { IfOk result (λ s. s ≡ bare (state_of parts)) }
    {
        let index = index_of(alloc, parts.commits.as_slice())?;
        Ok(Indexed {
            number: parts.number,
            version: parts.version,
            members: Members::of(alloc, parts.floor, parts.members.as_slice())?,
            open: OpenSet::of(alloc, parts.open_trx)?,
            commits: VecDeque::from(parts.commits.into_vec()),
            index,
        })
    }

    /// All parts of the state, copied.
    pub(crate) fn parts(&self) -> Result<StateParts, NoMemory>
        ensures { IfOk result (λ parts. parts ≡ parts_of self.now) }
    {
        let alloc = *self.commits.allocator();
        Ok(StateParts {
            number: self.number,
            floor: self.members.floor(),
            version: self.version,
            members: self.members.items()?,
            rows: RowList::new(alloc),
            commits: copied(alloc, &self.commits)?,
            open_trx: self.open.items()?,
        })
    }
}

// The index of commits whose numbers rise.
fn index_of(alloc: Global, commits: &[CommitItem]) -> Result<Index, NoMemory>
    requires { Rise commits.now }
    ensures { IfOk result (λ index. index ≡ entered commits.now) }
{
    let mut index = Index::new(alloc)?;
    for commit in commits {
        index.enter(commit.number, &commit.keys)?;
    }
    Ok(index)
}

// The same commits.
fn copied(alloc: Global, commits: &VecDeque<CommitItem>) -> Result<CommitList, NoMemory>
    ensures { IfOk result (λ same. same ≡ commits.now.items) }
{
    let mut same = CommitList::new(alloc);
    for commit in commits {
        same.push(CommitItem {
            number: commit.number,
            trx: commit.trx,
            keys: commit.keys.copy()?,
        })?;
    }
    Ok(same)
}
