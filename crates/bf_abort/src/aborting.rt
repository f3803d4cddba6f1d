ghost use Rattle.std.specs.Prelude.{◌≡◌, ◌≤◌, IfOk};
ghost use Rattle.finite_map.specs.FiniteMap.{remove};
ghost use Rattle.client_trx.specs.Live.{killed_by};
ghost use Rattle.row_locks.specs.Locks.{touching_sessions};
ghost use Rattle.row_locks.specs.declared.holder.Holder.TheVariants.{Session};

use client_trx::{Outcome, Trx};
use key_sets::KeySet;
use row_locks::{Holder, LockTable};
use wsrep_base::{NoMemory, SessionList};

/// The sessions that have a lock that touches one of the unit's keys, ascending.
pub fn victims(locks: &LockTable, keys: &KeySet) -> Result<SessionList, NoMemory>
    ensures { IfOk result (λ sessions. sessions ≡ touching_sessions locks.now.locks keys.now) }
{
    locks.touching(keys)
}

/// Aborts the session's transaction for the unit with this number: its locks are released, and it
/// becomes what the table of statuses says. It takes no memory: the rollback of one that ends is
/// made before, where it is due.
pub fn abort(locks: &mut LockTable, session: u8, trx: &mut Trx, number: u64) -> Outcome
    ensures locks { locks.new.locks ≡ remove locks.old.locks (Session session) }
    ensures spare { locks.old.spare ≤ locks.new.spare }
    ensures killed { (result, trx.new) ≡ killed_by number trx.old }
{
    locks.release(Holder::Session(session));
    if trx.status().has_locks() {
        trx.killed(number)
    } else {
        Outcome::Lives
    }
}
