ghost use Rattle.std.specs.Prelude.{◌≡◌, ◌+◌, ◌<◌, ◌≤◌, ◌^◌, List, [], None, length, fold, IfOk, OnOk, IfErr, OnErr, IsTrue};
ghost use Rattle.std.specs.Option.{unwrap_or};
ghost use Rattle.finite_map.specs.FiniteMap.{get};
ghost use Rattle.wsrep_base.specs.declared.limits.TheConstants.{NUMBERS_END};

use crate::answers::Started;
use crate::node::NodeParts;
use crate::ranges::{few_live, progress_in_range};
use apply_unit::Task;
use bf_abort::{abort, victims};
use client_trx::Outcome;
use indexmap::IndexSet;
use key_sets::KeySet;
use node_parts::{MessageList, is_local};
use order_event::Message;
use row_locks::Holder;
use row_model::{ImageList, OpList};
use std::alloc::AllocError;
use undo_rows::Rows;
use write_set::encode;
use wsrep_base::{NoMemory, SessionList};

impl NodeParts {
    ghost use Rattle.key_sets.specs.Keys.{Keys};
    ghost use Rattle.certification.specs.Certifies.{changes_with};
    ghost use Rattle.order_event.specs.declared.event.Event.{Event};
    ghost use Rattle.order_event.specs.declared.step.Answer.TheVariants as answer;
    ghost use Rattle.node_meaning.specs.Steps.{start_step, send_rollback, end_killed};
    ghost use Rattle.node_meaning.specs.Units.{images_of, ops_at, named_rows};
    ghost use Rattle.node_core.specs.Answers.{started_answer, GivesTask};
    ghost use Rattle.node_core.specs.Stands.{IsStanding, Stands, Does, DoneOver, Unchanged, plain_of};
    ghost use Rattle.node_core.specs.Memory.{starts, StartWants};
    ghost use Rattle.node_core.specs.Starting.{CanStart, IsStartable, IsRefused, IsStartedOver, unit_started, with_sent, rollback_message, entered, Aborts};

    /// Starts the unit of the passed commit with this number. All memory is taken first.
    pub(crate) fn start(&mut self, number: u64) -> Result<Started, NoMemory>
        requires stands { IsStanding self.old }
        requires serial { self.old.at.serial < NUMBERS_END }
        ensures ok { IfOk result
            (λ r. Does (λ order n. start_step order n number) self.old self.new
            (started_answer number r)) }
        ensures task { IfOk result
            (λ r. (order : List Event) → Stands order self.old → GivesTask order number r) }
        ensures err { OnErr result (Unchanged self.old self.new) }
        ensures clear { OnErr result
            ((order : List Event) → Stands order self.old
            → StartWants order (plain_of self.old) number) }
    {
        let keys = match self.startable(number) {
            Ok(keys) => keys.copy()?,
            Err(refused) => return Ok(refused),
        };
        self.start_unit(number, keys)
    }

    /// Whether the unit of the passed commit with this number can start now.
    pub(crate) fn can_start(&self, number: u64) -> bool
        ensures { (order : List Event) → Stands order self.now
            → result ≡ starts order (plain_of self.now) number }
    {
        self.startable(number).is_ok()
    }

    // The keys of the unit that can start, or why it cannot.
    fn startable(&self, number: u64) -> Result<&KeySet, Started>
        ensures ok { IfOk result
            (λ keys. (order : List Event) → Stands order self.now
            → IsStartable order self.now number keys.now) }
        ensures err { IfErr result
            (λ refused. (order : List Event) → Stands order self.now
            → IsRefused order self.now number refused) }
    {
        if number <= self.at.committed || self.units.contains(number) {
            return Err(Started::NoUnit);
        }
        let Some(commit) = self.certification.commit_at(number) else {
            return Err(Started::NoUnit);
        };
        if is_local(&self.live, number) {
            return Err(Started::Local);
        }
        if let Some(earlier) = self.certification.in_the_way(number) {
            return Err(Started::NotYet(earlier));
        }
        Ok(&commit.keys)
    }

    // Nothing stands in the way of the unit.
    fn start_unit(&mut self, number: u64, keys: KeySet) -> Result<Started, NoMemory>
        requires can { (order : List Event) × CanStart order self.old number keys }
        requires serial { self.old.at.serial < NUMBERS_END }
        ensures ok { IfOk result
            (λ r. (order : List Event) → CanStart order self.old number keys
            → IsStartedOver order number keys self.old self.new r) }
        ensures err { OnErr result (Unchanged self.old self.new) }
    {
        let ops = self.changes_of(number)?;
        let images = self.images(&ops)?;
        let rows = images.len();
        let task = Task::new(number, ops, images)?;
        let aborted = self.begin_unit(number, keys, rows)?;
        Ok(Started::Unit(task, aborted))
    }

    // The unit starts, with so many rows. Gives the sessions whose transactions it aborts.
    fn begin_unit(
        &mut self,
        number: u64,
        keys: KeySet,
        rows: usize,
    ) -> Result<SessionList, NoMemory>
        requires can { (order : List Event) × CanStart order self.old number keys }
        requires serial { self.old.at.serial < NUMBERS_END }
        ensures ok { IfOk result
            (λ aborted. (order : List Event) → CanStart order self.old number keys
            → rows ≡ length (named_rows (ops_at order number))
            → DoneOver order (unit_started number keys) self.old self.new
            (answer.Started number aborted)) }
        ensures err { OnErr result (Unchanged self.old self.new) }
    {
        progress_in_range(&self.at);
        few_live(&self.live);
        let held = keys.copy()?;
        let aborted = victims(&self.locks, &keys)?;
        let sent = self.rollbacks(aborted.as_slice())?;
        self.reserve_unit(held.len(), rows)?;
        self.enter(number, keys, rows, sent)?;
        self.kill_all(number, aborted.as_slice());
        self.locks.hold(Holder::Unit(number), held.as_slice());
        Ok(aborted)
    }

    // The changes of the passed commit.
    fn changes_of(&self, number: u64) -> Result<OpList, NoMemory>
        ensures { IfOk result
            (λ ops. ops ≡ unwrap_or (changes_with number self.now.certification) []) }
    {
        match self.certification.changes_of(number) {
            Some(ops) => ops.copy(),
            None => Ok(OpList::new(self.alloc)),
        }
    }

    // The committed rows that the changes name, each once.
    fn images(&self, ops: &OpList) -> Result<ImageList, NoMemory>
        ensures { IfOk result (λ images. images ≡ images_of ops.now self.now.rows.committed) }
    {
        let mut images = ImageList::new(self.alloc);
        let mut named = IndexSet::new(self.alloc);
        for op in ops.as_slice() {
            let id = op.id();
            if named.insert(id)? {
                images.push((id, self.rows.committed(&id)))?;
            }
        }
        Ok(images)
    }

    // The rollbacks that the ends of these sessions' transactions leave, from the next serial on.
    fn rollbacks(&self, sessions: &[u8]) -> Result<MessageList, NoMemory>
        requires serial { self.now.at.serial < NUMBERS_END }
        ensures sent { IfOk result (λ sent. fold send_rollback (plain_of self.now) sessions.now
            ≡ with_sent (plain_of self.now) sent.items) }
        ensures few { IfOk result (λ sent. length sent.items < 2 ^ 63) }
    {
        let mut sent = MessageList::new(self.alloc);
        for session in sessions {
            let serial = self.at.serial + sent.len() as u64;
            if let Some(message) = self.rollback_of(*session, serial)? {
                sent.push_back(message)?;
            }
        }
        Ok(sent)
    }

    // The rollback with this serial that the end of the session's transaction leaves, if any.
    fn rollback_of(&self, session: u8, serial: u64) -> Result<Option<Message>, NoMemory>
        ensures { IfOk result (λ message. message
            ≡ rollback_message (get self.now.live session) serial self.now.at.committed) }
    {
        let Some(trx) = self.live.get(session) else {
            return Ok(None);
        };
        match trx.rollback_due(serial, self.at.committed)? {
            Some(set) => Ok(Some(Message::Write(encode(self.alloc, &set)?))),
            None => Ok(None),
        }
    }

    // The unit is entered and the messages are sent, or neither.
    fn enter(
        &mut self,
        number: u64,
        keys: KeySet,
        rows: usize,
        sent: MessageList,
    ) -> Result<(), NoMemory>
        requires absent { get self.old.units.units number ≡ None }
        requires small { self.old.units.room + rows < 2 ^ 63 }
        requires serial { self.old.at.serial + length sent.items < 2 ^ 64 }
        ensures ok { OnOk result (self.new ≡ entered self.old number keys rows sent.items) }
        ensures err { OnErr result (self.new ≡ self.old) }
    {
        let count = sent.len() as u64;
        let waiting = self.queue.outbox_len();
        self.queue.append(sent)?;
        match self.units.insert(number, keys, rows) {
            Ok(()) => {
                self.at.serial += count;
                Ok(())
            }
            Err(refused) => {
                self.queue.keep(waiting);
                Err(refused)
            }
        }
    }

    // Makes room for the keys and the rows of a unit. No allocation is larger than isize::MAX.
    fn reserve_unit(&mut self, keys: usize, rows: usize) -> Result<(), NoMemory>
        ensures keys { OnOk result (keys ≤ self.new.locks.spare) }
        ensures rows { OnOk result (self.new.units.room + rows ≤ self.new.rows.spare) }
        ensures small { OnOk result (self.new.units.room + rows < 2 ^ 63) }
        ensures units { self.new.units ≡ self.old.units }
        ensures same { Unchanged self.old self.new }
    {
        let room = self.room_with(rows)?;
        if room > isize::MAX as usize {
            return Err(AllocError);
        }
        self.locks.reserve(keys)?;
        self.rows.reserve(room)
    }

    /// Room for so many rows more than the units have.
    pub(crate) fn room_with(&self, more: usize) -> Result<usize, NoMemory>
        ensures { IfOk result (λ room. room ≡ self.now.units.room + more) }
    {
        match self.units.room().checked_add(more) {
            Some(room) => Ok(room),
            None => Err(AllocError),
        }
    }

    // The unit aborts the transactions of all these sessions.
    fn kill_all(&mut self, number: u64, sessions: &[u8])
        ensures { Aborts (λ n. fold (end_killed number) n sessions.now) self.old self.new }
    {
        for session in sessions {
            self.kill(number, *session);
        }
    }

    // The unit aborts the session's transaction.
    fn kill(&mut self, number: u64, session: u8)
        ensures { Aborts (λ n. end_killed number n session) self.old self.new }
    {
        let Some(mut trx) = self.live.take(session) else {
            return;
        };
        self.rows.roll_back(session);
        match abort(&mut self.locks, session, &mut trx, number) {
            Outcome::Lives => self.live.put(session, trx),
            Outcome::Ends(reply) => self.waiting.put(session, reply),
        }
    }
}
