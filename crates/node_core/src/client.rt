ghost use Rattle.std.specs.Prelude.{◌≡◌, ◌≤◌, ◌<◌, List, is_none, is_some, IfSome, IfOk, OnOk, OnErr, IsTrue, false};
ghost use Rattle.finite_map.specs.FiniteMap.{get};
ghost use Rattle.wsrep_base.specs.declared.limits.TheConstants.{NUMBERS_END};

use crate::node::NodeParts;
use crate::ranges::progress_in_range;
use crate::refusal::row_reply;
use client_trx::Trx;
use key_sets::Kind;
use node_meaning::Phase;
use order_event::Message;
use row_locks::Holder;
use row_model::{Call, Op, Reply, RowId};
use undo_rows::Rows;
use write_set::{WriteSet, encode};
use wsrep_base::{NoMemory, TrxId};

impl NodeParts {
    ghost use Rattle.row_model.specs.Names.{call_fits};
    ghost use Rattle.order_event.specs.declared.event.Event.{Event};
    ghost use Rattle.node_meaning.specs.Node.{rows_at, seen_rows, end_live};
    ghost use Rattle.node_meaning.specs.Client.{client, served, begin_call, commit_call, rollback_call, poll_reply, row_reply, is_pending};
    ghost use Rattle.node_core.specs.Client.{closed_by, sends_commit, sends_rollback, takes_memory};
    ghost use Rattle.node_core.specs.Sending.{node_sent, node_sent_any, with_commit};
    ghost use Rattle.write_set.specs.Rules.{obeys};
    ghost use Rattle.node_core.specs.Memory.{CallWants};
    ghost use Rattle.node_core.specs.Stands.{IsStanding, Stands, Does, Unchanged, Moves, plain_of};

    /// An answer that waits, then the rules before the table of calls, then the table.
    pub(crate) fn client(&mut self, session: u8, call: &Call) -> Result<Reply, NoMemory>
        requires stands { IsStanding self.old }
        requires session { (1 ≤ session) × (session ≤ 32) }
        requires names { IsTrue (call_fits call.now) }
        requires serial { self.old.at.serial < NUMBERS_END }
        requires begin { self.old.at.begin < NUMBERS_END }
        ensures ok { IfOk result
            (Does (λ order n. client order n session call.now) self.old self.new) }
        ensures err { OnErr result (Unchanged self.old self.new) }
        ensures open { OnErr result (CallWants (plain_of self.old) session call.now) }
    {
        if let Some(reply) = self.waiting.take(session) {
            return Ok(reply);
        }
        if let Some(reply) = self.closed(session) {
            return Ok(reply);
        }
        self.serve(session, call)
    }

    // The rules before the table of calls.
    fn closed(&self, session: u8) -> Option<Reply>
        ensures { result ≡ closed_by self.now.at (get self.now.live session) }
    {
        if self.is_pending(session) {
            return Some(Reply::Pending);
        }
        match self.at.phase {
            Phase::Left => Some(Reply::Disconnected),
            Phase::Joining => Some(Reply::NotSynced),
            Phase::Connected if self.at.committed < self.at.view => Some(Reply::NotSynced),
            Phase::Connected => None,
        }
    }

    // Whether the session's transaction is live and not Running.
    fn is_pending(&self, session: u8) -> bool
        ensures { result ≡ is_pending (get self.now.live session) }
    {
        match self.live.get(session) {
            Some(trx) => !trx.status().is_running(),
            None => false,
        }
    }

    // The table of calls.
    fn serve(&mut self, session: u8, call: &Call) -> Result<Reply, NoMemory>
        requires stands { IsStanding self.old }
        requires session { (1 ≤ session) × (session ≤ 32) }
        requires running { is_pending (get self.old.live session) ≡ false }
        requires names { IsTrue (call_fits call.now) }
        requires serial { self.old.at.serial < NUMBERS_END }
        requires begin { self.old.at.begin < NUMBERS_END }
        ensures ok { IfOk result
            (Does
            (λ order n. served order n session (get n.live session) call.now) self.old self.new) }
        ensures err { OnErr result (Unchanged self.old self.new) }
        ensures takes { OnErr result (IsTrue (takes_memory (get self.old.live session) call.now)) }
    {
        match call {
            Call::Begin(unit) => self.begin(session, *unit),
            Call::Insert(id, row) => {
                self.statement(session, id, Kind::Exclusive, Some(Op::Insert(*id, *row)))
            }
            Call::Update(id, change) => {
                self.statement(session, id, Kind::Update, Some(Op::Update(*id, *change)))
            }
            Call::Delete(id) => {
                self.statement(session, id, Kind::Exclusive, Some(Op::Delete(*id)))
            }
            Call::Share(id) => self.statement(session, id, Kind::Shared, None),
            Call::Read(id) => Ok(self.read(session, id)),
            Call::Commit => self.commit(session),
            Call::Rollback => self.roll_back(session),
            Call::Poll => Ok(self.poll(session)),
        }
    }

    // A transaction begins with the next begin number. Its fragments have so many changes; with 0
    // it sends none.
    fn begin(&mut self, session: u8, unit: u64) -> Result<Reply, NoMemory>
        requires session { (1 ≤ session) × (session ≤ 32) }
        requires begin { self.old.at.begin < NUMBERS_END }
        ensures ok { IfOk result
            (Does (λ order n. begin_call n session unit (get n.live session)) self.old self.new) }
        ensures err { OnErr result (Unchanged self.old self.new) }
        ensures none { OnErr result (IsTrue (is_none (get self.old.live session))) }
    {
        if self.live.contains(session) {
            return Ok(Reply::InTrx);
        }
        let id = TrxId {
            member: self.at.member,
            begin: self.at.begin,
        };
        let trx = Trx::begin(self.alloc, id, unit)?;
        self.live.put(session, trx);
        self.at.begin += 1;
        Ok(Reply::Done)
    }

    fn read(&self, session: u8, id: &RowId) -> Reply
        requires running { is_pending (get self.now.live session) ≡ false }
        ensures { (order : List Event) → Stands order self.now
            → result ≡ row_reply (get (seen_rows (rows_at order self.now.at.committed)
            (get self.now.live session)) id.now) }
    {
        row_reply(self.rows.seen_by(session, id))
    }

    fn poll(&self, session: u8) -> Reply
        ensures { result ≡ poll_reply (get self.now.live session) }
    {
        if self.live.contains(session) {
            Reply::Running
        } else {
            Reply::NoTrx
        }
    }

    // A commit that changes nothing is done at once; else its write set is sent.
    fn commit(&mut self, session: u8) -> Result<Reply, NoMemory>
        requires stands { IsStanding self.old }
        requires session { (1 ≤ session) × (session ≤ 32) }
        requires running { is_pending (get self.old.live session) ≡ false }
        requires serial { self.old.at.serial < NUMBERS_END }
        ensures ok { IfOk result
            (Does (λ order n. commit_call n session (get n.live session)) self.old self.new) }
        ensures err { OnErr result (Unchanged self.old self.new) }
        ensures sends { OnErr result (IsTrue (sends_commit (get self.old.live session))) }
    {
        progress_in_range(&self.at);
        let Some(trx) = self.live.get(session) else {
            return Ok(Reply::NoTrx);
        };
        if trx.ops().is_empty() && trx.sent() == 0 {
            self.end(session);
            return Ok(Reply::Committed(0));
        }
        let set = trx.commit_set(self.at.serial, self.at.committed)?;
        self.send(&set)?;
        self.commit_is_sent(session);
        Ok(Reply::Pending)
    }

    // The commit of the session's transaction is sent.
    fn commit_is_sent(&mut self, session: u8)
        requires running { is_pending (get self.old.live session) ≡ false }
        ensures { self.new
            ≡
            record self.old {
              live = with_commit self.old.live session
                  (get self.old.live session);
            } }
    {
        let Some(mut trx) = self.live.take(session) else {
            return;
        };
        trx.send_commit();
        self.live.put(session, trx);
    }

    // The session's transaction ends; where it ever sent a fragment, a rollback is sent first.
    fn roll_back(&mut self, session: u8) -> Result<Reply, NoMemory>
        requires serial { self.old.at.serial < NUMBERS_END }
        ensures ok { IfOk result
            (Does (λ order n. rollback_call n session (get n.live session)) self.old self.new) }
        ensures err { OnErr result (Unchanged self.old self.new) }
        ensures sends { OnErr result (IsTrue (sends_rollback (get self.old.live session))) }
    {
        progress_in_range(&self.at);
        let Some(trx) = self.live.get(session) else {
            return Ok(Reply::NoTrx);
        };
        let due = trx.rollback_due(self.at.serial, self.at.committed)?;
        self.send_any(&due)?;
        self.end(session);
        Ok(Reply::RolledBack)
    }

    // Sends the write set, if there is one.
    fn send_any(&mut self, set: &Option<WriteSet>) -> Result<(), NoMemory>
        requires serial { self.old.at.serial < NUMBERS_END }
        requires valid { IfSome set.now (λ set. IsTrue (obeys set)) }
        ensures ok { OnOk result (self.new ≡ node_sent_any self.old set.now) }
        ensures err { OnErr result (self.new ≡ self.old) }
        ensures some { OnErr result (IsTrue (is_some set.now)) }
    {
        match set {
            Some(set) => self.send(set),
            None => Ok(()),
        }
    }

    /// Sends the write set with the next serial: its message waits to be ordered.
    pub(crate) fn send(&mut self, set: &WriteSet) -> Result<(), NoMemory>
        requires serial { self.old.at.serial < NUMBERS_END }
        requires valid { IsTrue (obeys set.now) }
        ensures ok { OnOk result (self.new ≡ node_sent self.old set.now) }
        ensures err { OnErr result (self.new ≡ self.old) }
    {
        let bytes = encode(self.alloc, set)?;
        self.queue.push(Message::Write(bytes))?;
        self.at.serial += 1;
        Ok(())
    }

    // The session's transaction ends: it is live no longer, and its locks and changes go.
    pub(crate) fn end(&mut self, session: u8)
        ensures { Moves (λ n. end_live n session) self.old self.new }
    {
        let _ended = self.live.take(session);
        self.locks.release(Holder::Session(session));
        self.rows.roll_back(session);
    }
}
