//! What an event does to a state.
ghost use Rattle.std.specs.Prelude.{◌≡◌, ◌+◌, ◌<◌, ◌^◌, [], None, Some, unwrap_or, IfOk, OnOk, OnErr};
ghost use Rattle.finite_map.specs.FiniteMap.{get};
ghost use Rattle.wsrep_base.specs.declared.verdict.Judged.TheVariants as became;
ghost use Rattle.write_set.specs.Reading.{decoded};
ghost use Rattle.cert_meaning.specs.State.{whole_ops, fragments_of};
ghost use Rattle.cert_meaning.specs.Verdict.{trx_of};
ghost use Rattle.cert_meaning.specs.Whole.{Fits};
ghost use Rattle.cert_meaning.specs.Fold.{judged, judged_write, after, settled, closed, continued, committed, affected, effect_of, written, viewed, reported, commit_by, commit_made, commit_written, commit_of, ops_by, ops_written, ops_of};
ghost use Rattle.certification.specs.Certifies.{bare};
ghost use Rattle.certification.specs.Indexed.{begin_in, begin_of, dependency_of};

use super::Indexed;
use bytes::Bytes;
use cert_meaning::{CommitItem, Fragment, decoded, judged_as, trx_of, whole_ops};
use order_event::Event;
use row_model::OpList;
use std::alloc::Global;
use write_set::WriteSet;
use wsrep_base::{Judged, NoMemory, TrxId, Verdict};

/// What a step tells.
#[derive(Drop)]
pub(crate) struct Stepped {
    /// What became of the event.
    pub(crate) judged: Judged,
    /// The begin number of the write set that the event's bytes spell. None where they spell none,
    /// and of other events.
    pub(crate) begin: Option<u64>,
    /// The changes that the event commits: those of its transaction's fragments, and its own.
    pub(crate) changes: OpList,
    /// The latest commit that the event's commit touches.
    pub(crate) dependency: Option<u64>,
}

// What a write set commits: nothing, where it is no commit.
struct Made {
    changes: OpList,
    dependency: Option<u64>,
}

impl Indexed {
    /// Does one more event, and tells what became of it.
    #[tactic(auto, using(cert_meaning::proofs::FoldLaws::number_after), unfolding(cert_meaning::specs::Fold::judged, cert_meaning::specs::Fold::after, cert_meaning::specs::Fold::committed_ops, cert_meaning::specs::Fold::commit_of))]
    pub(crate) fn step(&mut self, event: &Event) -> Result<Stepped, NoMemory>
        requires { self.old.number + 1 < 2 ^ 64 }
        ensures judged { IfOk result (λ told. told.judged ≡ judged self.old event.now) }
        ensures begin { IfOk result (λ told. told.begin ≡ begin_in event.now) }
        ensures changes { IfOk result (λ told. told.changes ≡ ops_of self.old event.now) }
        ensures dependency { IfOk result
            (λ told. told.dependency ≡ dependency_of self.old (commit_of self.old event.now)) }
        ensures state { OnOk result (self.new ≡ bare (after self.old event.now)) }
        ensures number { OnOk result (self.new.number ≡ self.old.number + 1) }
        ensures err { OnErr result (self.new ≡ self.old) }
    {
        match event {
            Event::Write { member, body } => return self.write(*member, body),
            Event::View { version, members } => {
                self.view(*version, members.as_slice())?;
                Ok(self.told(Judged::View))
            }
            Event::Report { member, number } => {
                self.report(*member, *number);
                Ok(self.told(Judged::Report))
            }
        }
    }

    // What became of an event that has no write set.
    fn told(&self, judged: Judged) -> Stepped
        ensures judged { result.judged ≡ judged }
        ensures begin { result.begin ≡ None }
        ensures changes { result.changes ≡ [] }
        ensures dependency { result.dependency ≡ None }
    {
        Stepped {
            judged,
            begin: None,
            changes: OpList::new(self.alloc()),
            dependency: None,
        }
    }

    // The bytes of a member.
    fn write(&mut self, member: u32, body: &Bytes) -> Result<Stepped, NoMemory>
        requires { self.old.number + 1 < 2 ^ 64 }
        ensures judged { IfOk result
            (λ told. told.judged ≡ judged_write self.old member (decoded body.now)) }
        ensures begin { IfOk result (λ told. told.begin ≡ begin_of (decoded body.now)) }
        ensures changes { IfOk result
            (λ told. told.changes ≡ unwrap_or (ops_written self.old member (decoded body.now)) []) }
        ensures dependency { IfOk result (λ told. told.dependency
            ≡ dependency_of self.old (commit_written self.old member (decoded body.now))) }
        ensures state { OnOk result
            (self.new ≡ bare (settled (written self.old member (decoded body.now)))) }
        ensures err { OnErr result (self.new ≡ self.old) }
    {
        let Some(set) = decoded(self.alloc(), body)? else {
            self.settle();
            return Ok(self.told(Judged::Fail(Verdict::Malformed)));
        };
        let judged = judged_as(&set, self.verdict(member, &set)?);
        let begin = set.begin;
        let Made {
            changes,
            dependency,
        } = self.affect(set, judged)?;
        Ok(Stepped {
            judged,
            begin: Some(begin),
            changes,
            dependency,
        })
    }

    // What a write set does, by what became of it. Gives what it commits.
    fn affect(&mut self, set: WriteSet, judged: Judged) -> Result<Made, NoMemory>
        requires number { self.old.number + 1 < 2 ^ 64 }
        requires commit { judged ≡ became.Commit → Fits self.old set }
        requires fragment { judged ≡ became.Fragment → Fits self.old set }
        ensures changes { IfOk result
            (λ made. made.changes ≡ unwrap_or (ops_by self.old set (effect_of judged)) []) }
        ensures dependency { IfOk result (λ made. made.dependency
            ≡ dependency_of self.old (commit_made self.old set (effect_of judged))) }
        ensures state { OnOk result
            (self.new ≡ bare (settled (affected self.old set (effect_of judged)))) }
        ensures err { OnErr result (self.new ≡ self.old) }
    {
        match judged {
            Judged::Commit => return self.commit(set),
            Judged::Fragment => self.add(set)?,
            Judged::Rollback => self.close(&set),
            Judged::Fail(failure) => self.fail(&set, failure),
            Judged::View | Judged::Report => self.settle(),
        }
        Ok(Made {
            changes: OpList::new(self.alloc()),
            dependency: None,
        })
    }

    // A failure ends the transaction, unless the write set is none of its member or comes again.
    fn fail(&mut self, set: &WriteSet, failure: Verdict)
        requires { self.old.number + 1 < 2 ^ 64 }
        ensures { self.new
            ≡ bare (settled (affected self.old set.now (effect_of (became.Fail failure)))) }
    {
        match failure {
            Verdict::Pass | Verdict::Malformed | Verdict::Stranger | Verdict::Repeat => {
                self.settle()
            }
            Verdict::Future
            | Verdict::Stale
            | Verdict::Broken
            | Verdict::Conflict(_)
            | Verdict::Held(_) => self.close(set),
        }
    }

    // All keys of the transaction are entered. Room is made before anything is changed.
    fn commit(&mut self, set: WriteSet) -> Result<Made, NoMemory>
        requires number { self.old.number + 1 < 2 ^ 64 }
        requires fits { Fits self.old set }
        ensures changes { IfOk result (λ made. made.changes
            ≡ whole_ops (fragments_of self.old (trx_of set)) set.ops) }
        ensures dependency { IfOk result (λ made. made.dependency
            ≡ dependency_of self.old (Some (commit_by self.old set))) }
        ensures state { OnOk result (self.new ≡ bare (settled (committed self.old set))) }
        ensures err { OnErr result (self.new ≡ self.old) }
    {
        let trx = trx_of(&set);
        let serial = set.serial;
        // The copy takes no more room than it needs. It may be kept for long.
        let Some(keys) = self.open.whole_keys(trx, &set.keys)? else {
            unreachable!();
        };
        let changes = self.all_changes(trx, set.ops)?;
        let dependency = self.index.dependency(&keys);
        let number = self.number + 1;
        self.commits.reserve(1)?;
        self.index.enter(number, &keys)?;
        self.members.set_serial(trx.member, serial);
        self.open.close(trx);
        // As in `settle`, which the new commit has to come with.
        let _floor = self.members.floor();
        self.number = number;
        self.commits
            .push_back_reserved(CommitItem { number, trx, keys });
        Ok(Made {
            changes,
            dependency,
        })
    }

    // All changes of a transaction with those of one more write set.
    fn all_changes(&self, trx: TrxId, ops: OpList) -> Result<OpList, NoMemory>
        ensures { IfOk result (λ all. all ≡ whole_ops (fragments_of self.now trx) ops) }
    {
        let fragments = self.open.fragments(trx);
        if fragments.is_empty() {
            return Ok(ops);
        }
        whole_ops(self.alloc(), fragments, ops.as_slice())
    }

    // The transaction has one more fragment.
    fn add(&mut self, set: WriteSet) -> Result<(), NoMemory>
        requires number { self.old.number + 1 < 2 ^ 64 }
        requires fits { Fits self.old set }
        ensures ok { OnOk result (self.new ≡ bare (settled (continued self.old set))) }
        ensures err { OnErr result (self.new ≡ self.old) }
    {
        let trx = trx_of(&set);
        let serial = set.serial;
        let fragment = Fragment {
            number: self.number + 1,
            last_seen: set.last_seen,
            keys: set.keys,
            ops: set.ops,
        };
        self.open.add(trx, fragment)?;
        self.members.set_serial(trx.member, serial);
        self.settle();
        Ok(())
    }

    // The transaction is open no longer.
    fn close(&mut self, set: &WriteSet)
        requires { self.old.number + 1 < 2 ^ 64 }
        ensures { self.new ≡ bare (settled (closed self.old set.now)) }
    {
        self.members.set_serial(set.member, set.serial);
        self.open.close(trx_of(set));
        self.settle();
    }

    // The members are those of the view.
    fn view(&mut self, version: u32, members: &[u32]) -> Result<(), NoMemory>
        requires { self.old.number + 1 < 2 ^ 64 }
        ensures ok { OnOk result (self.new ≡ bare (settled (viewed self.old version members.now))) }
        ensures err { OnErr result (self.new ≡ self.old) }
    {
        self.members.view(self.number + 1, members)?;
        self.version = version;
        self.open.keep_of(members);
        self.settle();
        Ok(())
    }

    // A member reports what it has committed.
    fn report(&mut self, member: u32, number: u64)
        requires { self.old.number + 1 < 2 ^ 64 }
        ensures { self.new
            ≡ bare (settled (reported self.old member number (get self.old.members member))) }
    {
        self.members.report(self.number + 1, member, number);
        self.settle();
    }

    // One more event is seen. The floor is the least report already, as it is of all `Members`.
    fn settle(&mut self)
        requires { self.old.number + 1 < 2 ^ 64 }
        ensures { self.new ≡ bare (settled self.old) }
    {
        let _floor = self.members.floor();
        self.number += 1;
    }

    fn alloc(&self) -> Global {
        *self.commits.allocator()
    }
}
