ghost use Rattle.std.specs.Prelude.{◌≡◌, length, IfSome, IfOk, OnOk, OnErr, IsOk, IsTrue, false};
ghost use Rattle.write_set.specs.Rules.{parts_fit, obeys};
ghost use Rattle.client_trx.specs.KeyedOps.{IsFit, IsKeyOf};
ghost use Rattle.client_trx.specs.Live.{commit_flags, fragment_flags};
ghost use Rattle.client_trx.specs.declared.status.Status.TheVariants as status;
ghost use Rattle.client_trx.specs.declared.status.Added.TheVariants as told_as;

use crate::keyed_ops::KeyedOps;
use crate::newest::{Gain, Newest, nothing_new, put_last, settle};
use crate::status::{Added, Outcome, Status};
use key_sets::{KeySet, Kind, Parts};
use row_model::{Op, OpList, Reply};
use std::alloc::Global;
use std::marker::Model;
use write_set::{END, ROLLBACK, START, WriteSet};
use wsrep_base::{NoMemory, TrxId, Verdict};

/// A live transaction.
#[derive(Drop)]
pub struct Trx {
    id: TrxId,
    unit: u64,
    sent: u32,
    status: Status,
    whole: KeyedOps,
    // What came since the last fragment; None until one is sent, as that is then the whole.
    newest: Option<Newest>,
}

impl Model for Trx {
    ghost use Rattle.client_trx.specs.Live.{Live};
    ghost use Rattle.client_trx.specs.Newest.{AreParts, newest_part};

    ghost Value = { Live };

    ghost view = { λ t. record {
      trx = t.id;
      unit = t.unit;
      sent = t.sent;
      keys = t.whole.keys;
      ops = t.whole.ops;
      new_keys = (newest_part t.whole t.newest).keys;
      new_ops = (newest_part t.whole t.newest).ops;
      status = t.status;
    } };

    ghost invariant = { λ t. AreParts t.whole t.newest t.sent };
}

impl Trx {
    ghost use Rattle.client_trx.specs.Live.{begun, added, add_by, is_too_large, due_fragment, newest_of, CanSendFragment, has_locks, is_sent, is_uncommitted, with_status, set_from, commit_of, fragment_of, fragment_sent, rollback_of, rollback_due, judged_by, killed_by};

    /// A transaction that has done nothing yet. It sends a fragment whenever it made `unit`
    /// changes since the last one; 0 sends none.
    pub fn begin(alloc: Global, id: TrxId, unit: u64) -> Result<Trx, NoMemory>
        ensures { IfOk result (λ t. t ≡ begun id unit) }
    {
        Ok(Trx {
            id,
            unit,
            sent: 0,
            status: Status::Running,
            whole: KeyedOps::new(alloc)?,
            newest: None,
        })
    }

    /// Its name: its member, and its begin number.
    pub fn id(&self) -> TrxId
        ensures { result ≡ self.now.trx }
    {
        self.id
    }

    /// Its begin number.
    pub fn begin_number(&self) -> u64
        ensures { result ≡ self.now.trx.begin }
    {
        self.id.begin
    }

    /// How many changes a fragment has; 0 where it sends none.
    pub fn unit(&self) -> u64
        ensures { result ≡ self.now.unit }
    {
        self.unit
    }

    /// How many fragments it has sent.
    pub fn sent(&self) -> u32
        ensures { result ≡ self.now.sent }
    {
        self.sent
    }

    /// How far it is.
    pub fn status(&self) -> Status
        ensures { result ≡ self.now.status }
    {
        self.status
    }

    /// The keys since its start.
    pub fn keys(&self) -> &KeySet
        ensures value { result.now ≡ self.now.keys }
        ensures fit { IsFit self.now.keys self.now.ops }
    {
        self.whole.keys()
    }

    /// The changes since its start, in order. Each is covered by a key.
    pub fn ops(&self) -> &OpList
        ensures value { result.now ≡ self.now.ops }
        ensures fit { IsFit self.now.keys self.now.ops }
    {
        self.whole.ops()
    }

    /// Adds a statement's key, and its change where there is one.
    pub fn add(&mut self, parts: &Parts, kind: Kind, op: Option<Op>) -> Result<Added, NoMemory>
        requires running { self.old.status ≡ status.Running }
        requires names { IsTrue (parts_fit parts.now) }
        requires change { IfSome op (λ op. IsKeyOf parts.now kind op) }
        ensures ok { IfOk result (λ told. (told, self.new) ≡ add_by self.old parts.now kind op) }
        ensures err { OnErr result (self.new ≡ self.old) }
        ensures fits { OnErr result (is_too_large (added self.old parts.now kind op) ≡ false) }
        ensures due { IfOk result (λ told. told ≡ told_as.Fragment → CanSendFragment self.new) }
    {
        match self.adding(parts, &op) {
            Added::TooLarge => Ok(Added::TooLarge),
            told => {
                self.extend(parts, kind, &op)?;
                Ok(told)
            }
        }
    }

    // What becomes of one more key and change.
    fn adding(&self, parts: &Parts, op: &Option<Op>) -> Added
        ensures { (kind : Kind) → result ≡ (add_by self.now parts.now kind op.now).0 }
    {
        if self.whole.is_over_with(parts, op) {
            Added::TooLarge
        } else if op.is_some() && self.unit > 0 && self.unit == self.new_count() as u64 + 1 {
            Added::Fragment
        } else {
            Added::Done
        }
    }

    // Room for the key and the change is made before either part changes.
    fn extend(&mut self, parts: &Parts, kind: Kind, op: &Option<Op>) -> Result<(), NoMemory>
        requires names { IsTrue (parts_fit parts.now) }
        requires change { IfSome op.now (λ op. IsKeyOf parts.now kind op) }
        requires room { is_too_large (added self.old parts.now kind op.now) ≡ false }
        ensures ok { OnOk result (self.new ≡ added self.old parts.now kind op.now) }
        ensures err { OnErr result (self.new ≡ self.old) }
    {
        settle(&mut self.newest)?;
        self.whole.add(parts, kind, op)?;
        let gain = Gain {
            parts: *parts,
            kind,
            op: *op,
        };
        put_last(&mut self.newest, gain);
        Ok(())
    }

    // The number of changes since the last fragment.
    fn new_count(&self) -> usize
        ensures { result ≡ length self.now.new_ops }
    {
        match &self.newest {
            Some(newest) => newest.count(),
            None => self.whole.ops().len(),
        }
    }

    // The keys and changes since the last fragment, in memory of their own.
    fn gathered(&self) -> Result<KeyedOps, NoMemory>
        ensures { IfOk result (λ all. all ≡ newest_of self.now) }
    {
        match &self.newest {
            Some(newest) => newest.copied(),
            None => self.whole.copy(),
        }
    }

    // The write set of these keys and changes.
    fn write_set(&self, all: KeyedOps, serial: u64, last_seen: u64, flags: u8) -> WriteSet
        ensures set { result ≡ set_from self.now all serial last_seen flags }
        ensures fit { IsFit result.keys result.ops }
    {
        let (keys, ops) = all.into_parts();
        WriteSet {
            member: self.id.member,
            serial,
            begin: self.id.begin,
            fragment: self.sent,
            flags,
            last_seen,
            keys,
            ops,
        }
    }

    /// The write set of its next fragment, which is then sent: it has gathered nothing since.
    pub fn make_fragment(&mut self, serial: u64, last_seen: u64) -> Result<WriteSet, NoMemory>
        requires due { CanSendFragment self.old }
        ensures set { IfOk result (λ set. set ≡ fragment_of self.old serial last_seen) }
        ensures valid { IfOk result (λ set. IsTrue (obeys set)) }
        ensures ok { OnOk result (self.new ≡ fragment_sent self.old) }
        ensures err { OnErr result (self.new ≡ self.old) }
    {
        let all = self.gathered()?;
        let set = self.write_set(all, serial, last_seen, fragment_flags(self.sent));
        self.send_fragment();
        Ok(set)
    }

    /// The write set of the fragment that one more key and change make due; None where `add` would
    /// not answer `Fragment`. With it a node has all memory of a fragment before anything changes.
    pub fn due_fragment(
        &self,
        parts: &Parts,
        kind: Kind,
        op: &Option<Op>,
        serial: u64,
        last_seen: u64,
    ) -> Result<Option<WriteSet>, NoMemory>
        requires names { IsTrue (parts_fit parts.now) }
        requires change { IfSome op.now (λ op. IsKeyOf parts.now kind op) }
        ensures set { IfOk result (λ set.
            set ≡ due_fragment self.now parts.now kind op.now serial last_seen) }
        ensures valid { IfOk result (λ set. IfSome set (λ set. IsTrue (obeys set))) }
    {
        match self.adding(parts, op) {
            Added::Fragment => {
                let set = self.fragment_with(parts, kind, op, serial, last_seen)?;
                Ok(Some(set))
            }
            Added::Done | Added::TooLarge => Ok(None),
        }
    }

    // The write set of the fragment that it would send with one more key and change.
    fn fragment_with(
        &self,
        parts: &Parts,
        kind: Kind,
        op: &Option<Op>,
        serial: u64,
        last_seen: u64,
    ) -> Result<WriteSet, NoMemory>
        requires names { IsTrue (parts_fit parts.now) }
        requires change { IfSome op.now (λ op. IsKeyOf parts.now kind op) }
        requires room { is_too_large (added self.now parts.now kind op.now) ≡ false }
        ensures set { IfOk result (λ set.
            set ≡ fragment_of (added self.now parts.now kind op.now) serial last_seen) }
        ensures valid { IfOk result (λ set. IsTrue (obeys set)) }
    {
        let flags = fragment_flags(self.sent);
        let mut all = self.gathered()?;
        all.add(parts, kind, op)?;
        Ok(self.write_set(all, serial, last_seen, flags))
    }

    /// Its next fragment is sent: it has gathered nothing since. It takes no memory.
    pub fn send_fragment(&mut self)
        requires due { CanSendFragment self.old }
        ensures { self.new ≡ fragment_sent self.old }
    {
        self.newest = nothing_new(self.whole.keys().alloc());
        self.sent += 1;
        self.status = Status::FragmentSent;
    }

    /// The write set of its commit. It carries what came since the last fragment; with nothing, it
    /// is an END without change, which commits the fragments.
    pub fn commit_set(&self, serial: u64, last_seen: u64) -> Result<WriteSet, NoMemory>
        ensures set { IfOk result (λ set. set ≡ commit_of self.now serial last_seen) }
        ensures valid { IfOk result (λ set. IsTrue (obeys set)) }
    {
        let all = self.gathered()?;
        Ok(self.write_set(all, serial, last_seen, commit_flags(self.sent)))
    }

    /// Its commit is sent. It takes no memory.
    pub fn send_commit(&mut self)
        requires running { self.old.status ≡ status.Running }
        ensures { self.new ≡ with_status self.old status.CommitSent }
    {
        self.status = Status::CommitSent;
    }

    /// The write set of its commit, which is then sent.
    pub fn make_commit(&mut self, serial: u64, last_seen: u64) -> Result<WriteSet, NoMemory>
        requires running { self.old.status ≡ status.Running }
        ensures set { IfOk result (λ set. set ≡ commit_of self.old serial last_seen) }
        ensures valid { IfOk result (λ set. IsTrue (obeys set)) }
        ensures ok { OnOk result (self.new ≡ with_status self.old status.CommitSent) }
        ensures err { OnErr result (self.new ≡ self.old) }
    {
        let set = self.commit_set(serial, last_seen)?;
        self.send_commit();
        Ok(set)
    }

    /// The write set that takes its fragments back. The transaction stays as it is until it ends.
    pub fn make_rollback(&self, serial: u64, last_seen: u64) -> Result<WriteSet, NoMemory>
        requires uncommitted { IsTrue (is_uncommitted self.now.status) }
        ensures set { IfOk result (λ set. set ≡ rollback_of self.now serial last_seen) }
        ensures valid { IfOk result (λ set. IsTrue (obeys set)) }
        ensures succeeds { IsOk result }
    {
        let alloc = self.whole.keys().alloc();
        Ok(WriteSet {
            member: self.id.member,
            serial,
            begin: self.id.begin,
            fragment: 0,
            flags: ROLLBACK,
            last_seen,
            keys: KeySet::new(alloc)?,
            ops: OpList::new(alloc),
        })
    }

    /// The rollback that is sent where it ends before its commit; None where it never sent a
    /// fragment, or its commit is sent.
    pub fn rollback_due(&self, serial: u64, last_seen: u64) -> Result<Option<WriteSet>, NoMemory>
        ensures set { IfOk result (λ set. set ≡ rollback_due self.now serial last_seen) }
        ensures valid { IfOk result (λ set. IfSome set (λ set. IsTrue (obeys set))) }
        ensures succeeds { IsOk result }
    {
        if self.status.is_uncommitted() && self.sent > 0 {
            Ok(Some(self.make_rollback(serial, last_seen)?))
        } else {
            Ok(None)
        }
    }

    /// Takes the verdict on the write set that it sent, which has number `n`.
    pub fn judged(&mut self, n: u64, verdict: Verdict) -> Outcome
        requires sent { IsTrue (is_sent self.old.status) }
        ensures { (result, self.new) ≡ judged_by n verdict self.old }
    {
        match verdict {
            Verdict::Pass => {
                self.status = self.status.passed(n);
                Outcome::Lives
            }
            Verdict::Conflict(v) | Verdict::Held(v) => Outcome::Ends(Reply::DeadlockCert(v)),
            Verdict::Malformed
            | Verdict::Stranger
            | Verdict::Repeat
            | Verdict::Future
            | Verdict::Stale
            | Verdict::Broken => Outcome::Lives,
        }
    }

    /// Takes that the unit of the write set with number `n` needs its locks.
    pub fn killed(&mut self, n: u64) -> Outcome
        requires locks { IsTrue (has_locks self.old.status) }
        ensures { (result, self.new) ≡ killed_by n self.old }
    {
        match self.status {
            Status::Running | Status::FragmentSent => Outcome::Ends(Reply::DeadlockBf(n)),
            Status::CommitSent => {
                self.status = Status::KilledSent;
                Outcome::Lives
            }
            Status::Certified(own) => {
                self.status = Status::Replaying(own);
                Outcome::Lives
            }
            Status::KilledSent | Status::Replaying(_) => Outcome::Lives,
        }
    }

    /// An equal transaction.
    pub fn copy(&self) -> Result<Trx, NoMemory>
        ensures { IfOk result (λ t. t ≡ self.now) }
    {
        let newest = copied(&self.newest)?;
        Ok(Trx {
            id: self.id,
            unit: self.unit,
            sent: self.sent,
            status: self.status,
            whole: self.whole.copy()?,
            newest,
        })
    }
}

fn commit_flags(sent: u32) -> u8
    ensures { result ≡ commit_flags sent }
{
    if sent == 0 { START | END } else { END }
}

fn fragment_flags(sent: u32) -> u8
    ensures { result ≡ fragment_flags sent }
{
    if sent == 0 { START } else { 0 }
}

fn copied(newest: &Option<Newest>) -> Result<Option<Newest>, NoMemory>
    ensures { IfOk result (λ same. same ≡ newest.now) }
{
    match newest {
        Some(newest) => Ok(Some(newest.copy()?)),
        None => Ok(None),
    }
}
