ghost use Rattle.std.specs.Prelude.{◌≡◌, ◌≤◌, option_map, IfSome};
ghost use Rattle.std.specs.List.{find};
ghost use Rattle.node_meaning.specs.Steps.{session_of as with_begin};
ghost use Rattle.trx_replay.specs.Replay as replay;
ghost use Rattle.node_parts.specs.Sessions.{is_wanted};

use crate::slots::Slots;
use client_trx::Trx;
use trx_replay::{commits_at, is_certified_at};

// What a transaction is looked for by.
#[derive(Clone, Copy, Debug, PartialEq, Eq)]
pub(crate) enum Wanted {
    // Its begin number.
    Begin(u64),
    // It is Certified at this number.
    CertifiedAt(u64),
    // It commits at this number.
    CommitsAt(u64),
}

/// The session of the live transaction with this begin number.
pub fn session_of(live: &Slots<Trx>, begin: u64) -> Option<u8>
    ensures { result ≡ option_map (λ e. e.0) (with_begin live.now begin) }
{
    find(live, Wanted::Begin(begin))
}

/// Whether a live transaction is Certified at this number.
pub fn is_local(live: &Slots<Trx>, number: u64) -> bool
    ensures { result ≡ replay.is_local live.now number }
{
    find(live, Wanted::CertifiedAt(number)).is_some()
}

/// The session of the live transaction that commits at this number.
pub fn committer_of(live: &Slots<Trx>, number: u64) -> Option<u8>
    ensures value { result ≡ option_map (λ e. e.0) (replay.committer_of live.now number) }
    ensures within { IfSome result (λ session. (1 ≤ session) × (session ≤ 32)) }
{
    find(live, Wanted::CommitsAt(number))
}

// The first session whose transaction is the wanted one.
fn find(live: &Slots<Trx>, wanted: Wanted) -> Option<u8>
    ensures value { result
        ≡ option_map (λ e. e.0) (find (λ e. is_wanted wanted e.1) live.now.entries) }
    ensures within { IfSome result (λ session. (1 ≤ session) × (session ≤ 32)) }
{
    for session in 0..live.end() {
        if let Some(trx) = live.get(session)
            && is_wanted(trx, wanted)
        {
            return Some(session);
        }
    }
    None
}

fn is_wanted(trx: &Trx, wanted: Wanted) -> bool
    ensures { result ≡ is_wanted wanted trx.now }
{
    match wanted {
        Wanted::Begin(begin) => trx.begin_number() == begin,
        Wanted::CertifiedAt(number) => is_certified_at(trx, number),
        Wanted::CommitsAt(number) => commits_at(trx, number),
    }
}
