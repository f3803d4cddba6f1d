//! What stands before the members.
ghost use Rattle.std.specs.Prelude.{◌≡◌, ◌≤◌, length, IfOk};
ghost use Rattle.wsrep_base.specs.declared.limits.TheConstants.{MOST_EVENTS};
ghost use Rattle.write_set.specs.Reading.{Gives};
ghost use Rattle.state_snapshot.specs.Reading.{head_at};

use write_set::{Cursor, WsFault};
use wsrep_base::MOST_EVENTS;

/// The first byte of a snapshot.
pub(crate) const MARK: u8 = 0x53;

/// The version of the format.
pub(crate) const VERSION: u8 = 1;

/// The id of a state, and its numbers.
#[derive(Clone, Copy, Debug)]
pub(crate) struct Head {
    pub id: [u8; 16],
    /// How many events it has seen.
    pub number: u64,
    /// The least report.
    pub floor: u64,
    /// That of the last view.
    pub version: u32,
}

// The sixteen bytes of an id.
fn id_in(field: &[u8]) -> [u8; 16]
    requires { length field.now ≡ 16 }
    ensures { result ≡ field.now }
{
    let mut id = [0; 16];
    id.copy_from_slice(field);
    id
}

#[tactic(auto, unfolding(crate::specs::Reading::head_at))]
pub(crate) fn head_of<'a>(cursor: Cursor<'a>) -> Result<(Head, Cursor<'a>), WsFault>
    ensures read { Gives (λ x. (x.0, x.1)) result (head_at cursor.entry) }
    ensures few { IfOk result (λ x. x.0.number ≤ MOST_EVENTS) }
{
    let at = cursor.at();
    let (mark, rest) = cursor.number8()?;
    if mark != MARK {
        return Err(WsFault::NotCanonical(at));
    }
    let at = rest.at();
    let (version, rest) = rest.number8()?;
    if version != VERSION {
        return Err(WsFault::NotCanonical(at));
    }
    let at = rest.at();
    let (field, rest) = rest.bytes(16)?;
    let id = id_in(field);
    if id == [0; 16] {
        return Err(WsFault::NotCanonical(at));
    }
    let at = rest.at();
    let (number, rest) = rest.number64()?;
    if number > MOST_EVENTS {
        return Err(WsFault::NotCanonical(at));
    }
    let at = rest.at();
    let (floor, rest) = rest.number64()?;
    if floor > number {
        return Err(WsFault::NotCanonical(at));
    }
    let (version, rest) = rest.number32()?;
    let head = Head {
        id,
        number,
        floor,
        version,
    };
    Ok((head, rest))
}
