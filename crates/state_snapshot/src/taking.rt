//! The snapshot of a state.
ghost use Rattle.std.specs.Prelude.{◌≡◌, IfOk};
ghost use Rattle.cert_meaning.specs.Parts.{parts_of, trim};
ghost use Rattle.state_snapshot.specs.Rules.{IsGiven, Obeys};
ghost use Rattle.state_snapshot.specs.Spelling.{above_floor, trimmed, snapshot_of};

use crate::writing::spelled;
use bytes::Bytes;
use cert_meaning::{CommitItem, CommitList, FoldState, StateParts};
use wsrep_base::{NoMemory, StateId};

fn drop_to_floor(commits: &mut Vec<CommitItem>, floor: u64)
    ensures { commits.new.items ≡ above_floor floor commits.old.items }
{
    commits.retain(|commit| floor < commit.number);
}

// The commits above the floor.
fn above_floor(commits: CommitList, floor: u64) -> CommitList
    ensures { result ≡ above_floor floor commits }
{
    let mut kept = commits.into_vec();
    drop_to_floor(&mut kept, floor);
    CommitList::from(kept)
}

// The parts without the commits at or below the floor.
fn trimmed(parts: StateParts) -> StateParts
    ensures { result ≡ trimmed parts }
{
    let StateParts {
        number,
        floor,
        version,
        members,
        rows,
        commits,
        open_trx,
    } = parts;
    StateParts {
        number,
        floor,
        version,
        members,
        rows,
        commits: above_floor(commits, floor),
        open_trx,
    }
}

/// The snapshot of a state whose trimmed form meets the rules: its one spelling, without the
/// commits at or below its floor. The id is not nil.
pub fn take(state: &FoldState, id: StateId) -> Result<Bytes, NoMemory>
    requires rules { Obeys (parts_of (trim state.now)) }
    requires id { IsGiven id }
    ensures { IfOk result (λ bytes. bytes ≡ snapshot_of state.now id) }
{
    let parts = trimmed(state.parts()?);
    spelled(parts.members.alloc(), &parts, id)
}
