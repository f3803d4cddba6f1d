//! What an event does to a state.
ghost use Rattle.std.specs.Prelude.{◌≡◌, ◌+◌, ◌<◌, ◌^◌, [], unwrap_or, IfOk, OnOk, OnErr, List, ℕ};
ghost use Rattle.finite_map.specs.FiniteMap.{get};
ghost use Rattle.wsrep_base.specs.declared.verdict.Judged.TheVariants as became;
ghost use Rattle.write_set.specs.Reading.{decoded};
ghost use Rattle.cert_meaning.specs.State.{whole_ops, fragments_of};
ghost use Rattle.cert_meaning.specs.Verdict.{trx_of};
ghost use Rattle.cert_meaning.specs.Whole.{Fits};
ghost use Rattle.cert_meaning.specs.Fold.{judged, judged_write, after, settled, closed, continued, committed, affected, effect_of, written, viewed, reported, ops_by, ops_written, ops_of, set_in};

use super::FoldState;
use crate::fragments::whole_ops;
use crate::items::{CommitItem, Fragment, Told};
use crate::members::Standing;
use crate::sets::{decoded, judged_as, trx_of};
use bytes::Bytes;
use order_event::Event;
use row_model::OpList;
use write_set::WriteSet;
use wsrep_base::{Judged, NoMemory, Verdict};

impl FoldState {
    /// Does one more event, and tells what became of it.
    pub fn step(&mut self, event: &Event) -> Result<Judged, NoMemory>
        requires { self.old.number + 1 < 2 ^ 64 }
        ensures judged { IfOk result (λ found. found ≡ judged self.old event.now) }
        ensures state { OnOk result (self.new ≡ after self.old event.now) }
        ensures number { OnOk result (self.new.number ≡ self.old.number + 1) }
        ensures err { OnErr result (self.new ≡ self.old) }
    {
        let told = self.step_told(event)?;
        Ok(told.judged)
    }

    /// `step`, which tells also what it read in the event's bytes and what it committed.
    #[tactic(auto, using(crate::proofs::FoldLaws::number_after), unfolding(crate::specs::Fold::judged, crate::specs::Fold::after, crate::specs::Fold::committed_ops))]
    pub fn step_told(&mut self, event: &Event) -> Result<Told, NoMemory>
        requires { self.old.number + 1 < 2 ^ 64 }
        ensures judged { IfOk result (λ told. told.judged ≡ judged self.old event.now) }
        ensures state { OnOk result (self.new ≡ after self.old event.now) }
        ensures number { OnOk result (self.new.number ≡ self.old.number + 1) }
        ensures set { IfOk result (λ told. told.set ≡ set_in event.now) }
        ensures changes { IfOk result (λ told. told.changes ≡ ops_of self.old event.now) }
        ensures err { OnErr result (self.new ≡ self.old) }
    {
        match event {
            Event::Write { member, body } => return self.write(*member, body),
            Event::View { version, members } => {
                self.view(*version, members.as_slice())?;
                Ok(self.told(Judged::View))
            }
            Event::Report { member, number } => {
                self.report(*member, *number);
                Ok(self.told(Judged::Report))
            }
        }
    }

    // What became of an event that has no write set.
    fn told(&self, judged: Judged) -> Told
        ensures judged { result.judged ≡ judged }
        ensures set { result.set ≡ None }
        ensures changes { result.changes ≡ [] }
    {
        Told {
            judged,
            set: None,
            changes: OpList::new(self.alloc()),
        }
    }

    // The bytes of a member.
    fn write(&mut self, member: u32, body: &Bytes) -> Result<Told, NoMemory>
        requires { self.old.number + 1 < 2 ^ 64 }
        ensures judged { IfOk result
            (λ told. told.judged ≡ judged_write self.old member (decoded body.now)) }
        ensures state { OnOk result
            (self.new ≡ settled (written self.old member (decoded body.now))) }
        ensures set { IfOk result (λ told. told.set ≡ decoded body.now) }
        ensures changes { IfOk result
            (λ told. told.changes ≡ unwrap_or (ops_written self.old member (decoded body.now)) []) }
        ensures err { OnErr result (self.new ≡ self.old) }
    {
        let Some(set) = decoded(self.alloc(), body)? else {
            self.settle();
            return Ok(self.told(Judged::Fail(Verdict::Malformed)));
        };
        let judged = judged_as(&set, self.verdict(member, &set)?);
        let changes = self.affect(&set, judged)?;
        Ok(Told {
            judged,
            set: Some(set),
            changes,
        })
    }

    // What a write set does, by what became of it. Gives the changes that it commits.
    fn affect(&mut self, set: &WriteSet, judged: Judged) -> Result<OpList, NoMemory>
        requires number { self.old.number + 1 < 2 ^ 64 }
        requires commit { judged ≡ became.Commit → Fits self.old set.now }
        requires fragment { judged ≡ became.Fragment → Fits self.old set.now }
        ensures changes { IfOk result
            (λ changes. changes ≡ unwrap_or (ops_by self.old set.now (effect_of judged)) []) }
        ensures state { OnOk result
            (self.new ≡ settled (affected self.old set.now (effect_of judged))) }
        ensures err { OnErr result (self.new ≡ self.old) }
    {
        match judged {
            Judged::Commit => return self.commit(set),
            Judged::Fragment => self.add(set)?,
            Judged::Rollback => self.close(set),
            Judged::Fail(failure) => self.fail(set, failure),
            Judged::View | Judged::Report => self.settle(),
        }
        Ok(OpList::new(self.alloc()))
    }

    // A failure ends the transaction, unless the write set is none of its member or comes again.
    fn fail(&mut self, set: &WriteSet, failure: Verdict)
        requires { self.old.number + 1 < 2 ^ 64 }
        ensures { self.new ≡ settled (affected self.old set.now (effect_of (became.Fail failure))) }
    {
        match failure {
            Verdict::Pass | Verdict::Malformed | Verdict::Stranger | Verdict::Repeat => {
                self.settle()
            }
            Verdict::Future
            | Verdict::Stale
            | Verdict::Broken
            | Verdict::Conflict(_)
            | Verdict::Held(_) => self.close(set),
        }
    }

    // All changes of the transaction go into the rows. Room is made before anything is changed.
    fn commit(&mut self, set: &WriteSet) -> Result<OpList, NoMemory>
        requires number { self.old.number + 1 < 2 ^ 64 }
        requires fits { Fits self.old set.now }
        ensures changes { IfOk result
            (λ changes. changes ≡ whole_ops (fragments_of self.old (trx_of set.now)) set.now.ops) }
        ensures state { OnOk result (self.new ≡ settled (committed self.old set.now)) }
        ensures err { OnErr result (self.new ≡ self.old) }
    {
        let trx = trx_of(set);
        let alloc = self.alloc();
        let changes = whole_ops(alloc, self.open_trx.fragments(trx), set.ops.as_slice())?;
        let Some(keys) = self.open_trx.whole_keys(alloc, trx, &set.keys)? else {
            unreachable!();
        };
        self.commits.reserve(1)?;
        self.rows.reserve(changes.len())?;
        self.rows.apply_all(changes.as_slice());
        self.members.count_serial(set.member, set.serial);
        self.open_trx.close(trx);
        self.number += 1;
        self.floor = self.members.floor(self.floor);
        let commit = CommitItem {
            number: self.number,
            trx,
            keys,
        };
        match self.commits.push(commit) {
            Ok(()) => {}
            Err(_) => unreachable!(),
        }
        Ok(changes)
    }

    // The transaction has one more fragment.
    fn add(&mut self, set: &WriteSet) -> Result<(), NoMemory>
        requires number { self.old.number + 1 < 2 ^ 64 }
        requires fits { Fits self.old set.now }
        ensures ok { OnOk result (self.new ≡ settled (continued self.old set.now)) }
        ensures err { OnErr result (self.new ≡ self.old) }
    {
        let fragment = Fragment {
            number: self.number + 1,
            last_seen: set.last_seen,
            keys: set.keys.copy()?,
            ops: set.ops.copy()?,
        };
        let alloc = self.alloc();
        self.open_trx.add(alloc, trx_of(set), fragment)?;
        self.members.count_serial(set.member, set.serial);
        self.settle();
        Ok(())
    }

    // The transaction is open no longer.
    fn close(&mut self, set: &WriteSet)
        requires { self.old.number + 1 < 2 ^ 64 }
        ensures { self.new ≡ settled (closed self.old set.now) }
    {
        self.members.count_serial(set.member, set.serial);
        self.open_trx.close(trx_of(set));
        self.settle();
    }

    // The members are those of the view.
    fn view(&mut self, version: u32, members: &[u32]) -> Result<(), NoMemory>
        requires { self.old.number + 1 < 2 ^ 64 }
        ensures ok { OnOk result (self.new ≡ settled (viewed self.old version members.now)) }
        ensures err { OnErr result (self.new ≡ self.old) }
    {
        let alloc = self.alloc();
        self.members = self.members.listed(alloc, self.number + 1, members)?;
        self.version = version;
        self.open_trx.keep_of(members);
        self.settle();
        Ok(())
    }

    // A member reports what it has committed.
    fn report(&mut self, member: u32, number: u64)
        requires { self.old.number + 1 < 2 ^ 64 }
        ensures { self.new
            ≡ settled (reported self.old member number (get self.old.members member)) }
    {
        if let Some(standing) = self.members.get(member) {
            if standing.report <= number && number <= self.number {
                let serial = standing.serial;
                let report = number;
                self.members.set(member, Standing { report, serial });
            }
        }
        self.settle();
    }

    // One more event is seen.
    fn settle(&mut self)
        requires { self.old.number + 1 < 2 ^ 64 }
        ensures { self.new ≡ settled self.old }
    {
        self.number += 1;
        self.floor = self.members.floor(self.floor);
    }
}
