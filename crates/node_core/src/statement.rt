ghost use Rattle.std.specs.Prelude.{◌≡◌, ◌≤◌, ◌<◌, ◌+◌, List, Option, Some, None, is_some, IfOk, IfSome, OnOk, OnErr, IsTrue, false, option_map};
ghost use Rattle.finite_map.specs.FiniteMap.{get};
ghost use Rattle.wsrep_base.specs.declared.limits.TheConstants.{NUMBERS_END};
ghost use Rattle.key_sets.specs.Keys.{one_key};
ghost use Rattle.write_set.specs.Rules.{row_parts};
ghost use Rattle.node_core.specs.Statement.{reply_after};

use crate::node::NodeParts;
use crate::ranges::{change_in_range, place_in_range, progress_in_range};
use crate::refusal::{Met, hindrance, row_reply};
use client_trx::{Added, Trx};
use key_sets::{KeySet, Kind, Parts};
use row_locks::Holder;
use row_model::{Op, Reply, Row, RowId};
use std::alloc::{AllocError, Global};
use undo_rows::Rows;
use wsrep_base::NoMemory;

impl NodeParts {
    ghost use Rattle.row_model.specs.Names.{place_fits};
    ghost use Rattle.write_set.specs.Rules.{parts_fit};
    ghost use Rattle.client_trx.specs.KeyedOps.{IsKeyOf};
    ghost use Rattle.client_trx.specs.Live.{Live, add_by};
    ghost use Rattle.client_trx.specs.declared.status.Status.TheVariants as status;
    ghost use Rattle.row_locks.specs.Locks.{granted};
    ghost use Rattle.row_locks.specs.declared.holder.Holder.TheVariants.{Session};
    ghost use Rattle.node_core.specs.Client.{hindrance};
    ghost use Rattle.node_core.specs.Sending.{grown_by};
    ghost use Rattle.node_core.specs.Statement.{met_at, told_and_put, changes_after};
    ghost use Rattle.order_event.specs.declared.event.Event.{Event};
    ghost use Rattle.node_meaning.specs.Client.{statement, is_pending};
    ghost use Rattle.node_core.specs.Stands.{IsStanding, Stands, Does, Unchanged};

    /// A statement: it is refused, or its key and its change are added.
    pub(crate) fn statement(
        &mut self,
        session: u8,
        id: &RowId,
        kind: Kind,
        change: Option<Op>,
    ) -> Result<Reply, NoMemory>
        requires stands { IsStanding self.old }
        requires session { (1 ≤ session) × (session ≤ 32) }
        requires running { is_pending (get self.old.live session) ≡ false }
        requires serial { self.old.at.serial < NUMBERS_END }
        requires names { IsTrue (place_fits id.now) }
        requires change { IfSome change (IsKeyOf (row_parts id.now) kind) }
        ensures ok { IfOk result
            (Does
            (λ order n. statement order n session (get n.live session)
            (record { id = id.now; kind = kind; change = change })) self.old self.new) }
        ensures err { OnErr result (Unchanged self.old self.new) }
        ensures some { OnErr result (IsTrue (is_some (get self.old.live session))) }
    {
        let met = match self.meet(session, id, kind)? {
            Some(met) => met,
            None => return Ok(Reply::NoTrx),
        };
        match hindrance(&met, &change) {
            Some(reply) => Ok(reply),
            None => self.accept(session, id, kind, change, met),
        }
    }

    // What a statement of the session's transaction meets; None where it has none.
    fn meet(&self, session: u8, id: &RowId, kind: Kind) -> Result<Option<Met>, NoMemory>
        ensures met { IfOk result
            (λ met. met
            ≡ option_map (met_at self.now session id.now kind) (get self.now.live session)) }
        ensures some { OnErr result (IsTrue (is_some (get self.now.live session))) }
    {
        let Some(trx) = self.live.get(session) else {
            return Ok(None);
        };
        let parts = parts_of(id);
        let key = key_of(self.alloc, &parts, kind)?;
        Ok(Some(Met {
            held: self.certification.held_by(&key, trx.id()),
            blocker: self.locks.check(Holder::Session(session), &parts, kind),
            row: self.rows.seen_by(session, id),
        }))
    }

    // Nothing stands in the way of the statement but the size of its transaction.
    fn accept(
        &mut self,
        session: u8,
        id: &RowId,
        kind: Kind,
        change: Option<Op>,
        met: Met,
    ) -> Result<Reply, NoMemory>
        requires session { (1 ≤ session) × (session ≤ 32) }
        requires running { is_pending (get self.old.live session) ≡ false }
        requires serial { self.old.at.serial < NUMBERS_END }
        requires names { IsTrue (place_fits id.now) }
        requires change { IfSome change (IsKeyOf (row_parts id.now) kind) }
        requires met { Some met
            ≡ option_map (met_at self.old session id.now kind) (get self.old.live session) }
        requires free { hindrance met.held met.blocker met.row change ≡ None }
        ensures ok { IfOk result
            (Does
            (λ order n. statement order n session (get n.live session)
            (record { id = id.now; kind = kind; change = change })) self.old self.new) }
        ensures err { OnErr result (Unchanged self.old self.new) }
    {
        let parts = parts_of(id);
        place_in_range(id);
        change_in_range(&change);
        progress_in_range(&self.at);
        self.make_room()?;
        match self.extend(session, &parts, kind, change)? {
            Added::TooLarge => Ok(Reply::TooLarge),
            told => {
                self.hold(session, &parts, kind, &change);
                Ok(reply_after(told, met.row, &change))
            }
        }
    }

    // Makes room for one more key and one more row, beside the rows of the units.
    fn make_room(&mut self) -> Result<(), NoMemory>
        ensures locks { OnOk result (1 ≤ self.new.locks.spare) }
        ensures rows { OnOk result (self.old.units.room + 1 ≤ self.new.rows.spare) }
        ensures same { Unchanged self.old self.new }
    {
        self.locks.reserve(1)?;
        let room = self.room_with(1)?;
        self.rows.reserve(room)
    }

    // The session's transaction gets one more key, and the change where there is one; a fragment
    // that this makes due is sent.
    fn extend(
        &mut self,
        session: u8,
        parts: &Parts,
        kind: Kind,
        change: Option<Op>,
    ) -> Result<Added, NoMemory>
        requires session { (1 ≤ session) × (session ≤ 32) }
        requires running { is_pending (get self.old.live session) ≡ false }
        requires serial { self.old.at.serial < NUMBERS_END }
        requires names { IsTrue (parts_fit parts.now) }
        requires change { IfSome change (IsKeyOf parts.now kind) }
        ensures ok { IfOk result
            (λ told. (t : Live) → get self.old.live session ≡ Some t
            → (told, self.new) ≡ told_and_put self.old session (add_by t parts.now kind change)) }
        ensures err { OnErr result (self.new ≡ self.old) }
        ensures others { self.new
            ≡ record self.old { live = self.new.live; at = self.new.at; queue = self.new.queue } }
    {
        let Some(mut trx) = self.live.take(session) else {
            return Ok(Added::TooLarge);
        };
        let added = self.grow(&mut trx, parts, kind, change);
        self.live.put(session, trx);
        added
    }

    // Adds to the transaction. A fragment that this makes due has all its memory first: it is made,
    // and its message is in the queue, before the transaction changes.
    fn grow(
        &mut self,
        trx: &mut Trx,
        parts: &Parts,
        kind: Kind,
        change: Option<Op>,
    ) -> Result<Added, NoMemory>
        requires running { trx.old.status ≡ status.Running }
        requires serial { self.old.at.serial < NUMBERS_END }
        requires names { IsTrue (parts_fit parts.now) }
        requires change { IfSome change (IsKeyOf parts.now kind) }
        ensures ok { IfOk result
            (λ told. (told, trx.new, self.new)
            ≡ grown_by self.old (add_by trx.old parts.now kind change)) }
        ensures err { OnErr result ((self.new ≡ self.old) × (trx.new ≡ trx.old)) }
        ensures others { self.new ≡ record self.old { at = self.new.at; queue = self.new.queue } }
    {
        let (serial, seen) = (self.at.serial, self.at.committed);
        let Some(set) = trx.due_fragment(parts, kind, &change, serial, seen)? else {
            return trx.add(parts, kind, change);
        };
        self.send(&set)?;
        match trx.add(parts, kind, change) {
            Ok(told) => {
                trx.send_fragment();
                Ok(told)
            }
            Err(why) => {
                self.queue.take_back();
                self.at.serial -= 1;
                Err(why)
            }
        }
    }

    // The key is locked and the row changed; there is room for both, and nobody stands in the way.
    fn hold(&mut self, session: u8, parts: &Parts, kind: Kind, change: &Option<Op>)
        requires locks { 1 ≤ self.old.locks.spare }
        requires rows { 1 ≤ self.old.rows.spare }
        ensures others { self.new
            ≡ record self.old { locks = self.new.locks; rows = self.new.rows } }
        ensures locks { self.new.locks.locks
            ≡ (granted self.old.locks.locks (Session session) parts.now kind).1 }
        ensures changes { self.new.rows.changes ≡ changes_after self.old.rows session change.now }
        ensures committed { self.new.rows.committed ≡ self.old.rows.committed }
        ensures spare { self.old.rows.spare ≤ self.new.rows.spare + 1 }
    {
        let _granted = self.locks.grant(Holder::Session(session), parts, kind);
        if let Some(op) = change {
            let _written = self.rows.write(session, op);
        }
    }
}

// The set of just one key.
fn key_of(alloc: Global, parts: &Parts, kind: Kind) -> Result<KeySet, NoMemory>
    ensures { IfOk result (λ key. key ≡ one_key parts.now kind) }
{
    let mut key = KeySet::new(alloc)?;
    match key.add(parts, kind) {
        Ok(()) => Ok(key),
        Err(_) => Err(AllocError),
    }
}

// The answer to a statement, by what became of it.
fn reply_after(told: Added, row: Option<Row>, change: &Option<Op>) -> Reply
    ensures { result ≡ reply_after told row change.now }
{
    match (told, change) {
        (Added::Done, Some(_)) => Reply::Done,
        (Added::Done, None) => row_reply(row),
        (Added::Fragment, _) => Reply::Pending,
        (Added::TooLarge, _) => Reply::TooLarge,
    }
}

// The parts of the row's own key.
fn parts_of(id: &RowId) -> Parts
    ensures { result ≡ row_parts id.now }
{
    Parts {
        table: id.table,
        row: Some(id.row),
    }
}
