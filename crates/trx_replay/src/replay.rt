ghost use Rattle.std.specs.Prelude.{◌≡◌};
ghost use Rattle.trx_replay.specs.Replay.{replay_number, is_at, is_certified_at, commits_at};

use client_trx::Trx;

/// The number at which the transaction is to be replayed: that of its own commit. None where no
/// unit aborted it or its commit has not passed.
pub fn ready(trx: &Trx) -> Option<u64>
    ensures { result ≡ replay_number trx.now.status }
{
    if trx.status().has_locks() {
        None
    } else {
        trx.status().commit_number()
    }
}

/// Whether the transaction is Certified at this number: it commits there with its own changes.
pub fn is_certified_at(trx: &Trx, number: u64) -> bool
    ensures { result ≡ is_certified_at number trx.now.status }
{
    trx.status().has_locks() && is_at(number, trx.status().commit_number())
}

/// Whether the transaction commits at this number, with its own changes or by a replay.
pub fn commits_at(trx: &Trx, number: u64) -> bool
    ensures { result ≡ commits_at number trx.now.status }
{
    is_certified_at(trx, number) || is_at(number, ready(trx))
}

fn is_at(number: u64, own: Option<u64>) -> bool
    ensures { result ≡ is_at number own }
{
    match own {
        Some(own) => number == own,
        None => false,
    }
}
