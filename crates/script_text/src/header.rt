ghost use Rattle.std.specs.Prelude.{◌≡◌, Some, option_map};
ghost use Rattle.script_text.specs.Grammar.{header_at, header_is_within, judged};
ghost use Rattle.script_text.specs.Written.{header_written};

use crate::fields::{counting, number};
use crate::line::{Header, ScriptCause};
use crate::words::{Words, is};
use wsrep_base::{MOST_RING_BYTES, StateId};

// The most nodes of a cluster.
const NODES_MAX: u64 = 9;

// A header as it is written. Its numbers may be too great.
#[derive(Clone, Copy)]
struct WrittenHeader {
    nodes: u64,
    gcache: u64,
    id: StateId,
}

// A header, and nothing behind it.
pub(crate) fn header(words: &mut Words) -> Result<Header, ScriptCause>
    ensures { result ≡ judged header_is_within (header_at words.old) }
{
    match written_header(words) {
        Some(header) => header_within(header),
        None => Err(ScriptCause::Grammar),
    }
}

#[tactic(auto, unfolding(crate::specs::Grammar::header_at))]
fn written_header(words: &mut Words) -> Option<WrittenHeader>
    ensures { option_map header_written result ≡ header_at words.old }
{
    let cluster = words.next()?;
    let nodes = words.next()?;
    let gcache = words.next()?;
    let bytes = words.next()?;
    let id = words.next()?;
    let state = words.next()?;
    if words.next().is_some() {
        return None;
    }
    if !is(cluster, b"cluster") || !is(gcache, b"gcache") || !is(id, b"id") {
        return None;
    }
    Some(WrittenHeader {
        nodes: counting(nodes)?,
        gcache: number(bytes)?,
        id: StateId::parse_bytes(state)?,
    })
}

// The header, unless a number passes its limit.
fn header_within(header: WrittenHeader) -> Result<Header, ScriptCause>
    ensures { result ≡ judged header_is_within (Some (header_written header)) }
{
    if header.nodes > NODES_MAX || header.gcache > MOST_RING_BYTES {
        return Err(ScriptCause::Limit);
    }
    Ok(Header {
        nodes: header.nodes as u8,
        gcache: header.gcache,
        id: header.id,
    })
}
