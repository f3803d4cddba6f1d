//! Making a state from its snapshot.
ghost use Rattle.std.specs.Prelude.{IfOk};
ghost use Rattle.write_set.specs.Reading.{Gives as Reads};
ghost use Rattle.state_snapshot.specs.Laws.{IsSnapshot};
ghost use Rattle.state_snapshot.specs.Reading.{Gives, installed, read};

use crate::commits::commits_of;
use crate::fault::{SnapFault, fault_of};
use crate::head::head_of;
use crate::members::members_of;
use crate::open_trx::open_trx_of;
use crate::rows::rows_of;
use cert_meaning::{FoldState, StateParts};
use std::alloc::Global;
use write_set::{Cursor, WsFault};
use wsrep_base::StateId;

// The parts of the state that the bytes spell, and its id.
#[tactic(auto, unfolding(crate::specs::Reading::read))]
fn read_parts(alloc: Global, bytes: &[u8]) -> Result<(StateParts, [u8; 16]), WsFault>
    ensures { Reads (λ x. (x.0, x.1)) result (read bytes.now) }
{
    let (head, rest) = head_of(Cursor::new(bytes, 0))?;
    let (members, rest) = members_of(alloc, &head, rest)?;
    let (rows, rest) = rows_of(alloc, rest)?;
    let (commits, rest) = commits_of(alloc, &head, rest)?;
    let (open_trx, rest) = open_trx_of(alloc, head.number, members.as_slice(), rest)?;
    if !rest.is_at_end() {
        return Err(WsFault::Trailing(rest.at()));
    }
    let parts = StateParts {
        number: head.number,
        floor: head.floor,
        version: head.version,
        members,
        rows,
        commits,
        open_trx,
    };
    Ok((parts, head.id))
}

fn installed_state(alloc: Global, bytes: &[u8]) -> Result<(FoldState, StateId), SnapFault>
    ensures { Gives (λ x. (x.0, x.1)) result (installed bytes.now) }
{
    let (parts, id) = match read_parts(alloc, bytes) {
        Ok(read) => read,
        Err(fault) => return Err(fault_of(fault)),
    };
    match FoldState::of(alloc, parts) {
        Ok(state) => Ok((state, StateId::of_bytes(id))),
        Err(_) => Err(SnapFault::NoMemory),
    }
}

/// The state and its id that the bytes spell, all of the bytes; else the first fault that is met
/// from left to right. It gives room only for what is there.
pub fn install(alloc: Global, bytes: &[u8]) -> Result<(FoldState, StateId), SnapFault>
    // What is installed is trimmed and meets the rules, and the bytes are its snapshot.
    ensures found { IfOk result (λ x. IsSnapshot bytes.now x.0 x.1) }
    // Which state or fault it is.
    ensures exact { Gives (λ x. (x.0, x.1)) result (installed bytes.now) }
{
    installed_state(alloc, bytes)
}
