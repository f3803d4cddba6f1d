//! A node with its watcher.
ghost use Rattle.std.specs.Prelude.{◌≡◌, ◌≢◌, ◌≤◌, ◌<◌, ◌+◌, ℕ, List, Option, Some, None, is_some, length, slice_get, IfOk, IfErr, OnErr, IsTrue, true, false};
ghost use Rattle.std.specs.Option.{option_copied};
ghost use Rattle.finite_map.specs.FiniteMap.{get};
ghost use Rattle.wsrep_base.specs.declared.limits.TheConstants.{MOST_RING_BYTES, NUMBERS_END};

use crate::answers::{Advanced, Certified, Place, Reported, Started, Status, Taken};
use crate::gift::{Gift, GiveFault, ReceiveFault};
use crate::node::NodeParts;
use apply_unit::Done;
use gcache_ring::Ring;
use order_event::{Event, Message};
use row_model::{Call, Reply, Row, RowId, RowList};
use std::alloc::Global;
use undo_rows::Rows;
use wsrep_base::{NoMemory, StateId};
use wsrep_watch::{Note, Watcher};

/// A node. What it stands for is told over an order. Its watcher, if it has one, hears each number
/// that it commits.
#[derive(Drop)]
pub struct NodeOf<W: Watcher> {
    pub(crate) parts: NodeParts,
    pub(crate) watcher: Option<W>,
}

/// A node whose watcher is in a box.
pub type Node = NodeOf<Box<dyn Watcher + Send>>;

impl<W: Watcher> NodeOf<W> {
    ghost use Rattle.wsrep_base.specs.StateId.{nil_id};
    ghost use Rattle.row_model.specs.Names.{call_fits};
    ghost use Rattle.order_event.specs.declared.event.Event.{Event as Ordered};
    ghost use Rattle.order_event.specs.declared.step.Answer.TheVariants as answer;
    ghost use Rattle.order_event.specs.Spelling.{HasFewMembers};
    ghost use Rattle.undo_rows.specs.RowTable.{row_items};
    ghost use Rattle.node_parts.specs.Queue.{oldest};
    ghost use Rattle.node_parts.specs.Units.{is_started};
    ghost use Rattle.wsrep_base.specs.declared.limits.TheConstants.{MOST_EVENTS};
    ghost use Rattle.node_meaning.specs.Node.{start_node, rows_at, is_connected, is_left, is_joining};
    ghost use Rattle.node_meaning.specs.Leaving.{left_node};
    ghost use Rattle.node_meaning.specs.Joining.{IsAtRest, ring_of, joined_node};
    ghost use Rattle.node_meaning.specs.Status.{status_step};
    ghost use Rattle.node_meaning.specs.Client.{client};
    ghost use Rattle.node_meaning.specs.Steps.{sent_out, take_step, certify_step, start_step, finish_step, advance_step, report_step};
    ghost use Rattle.node_meaning.specs.Units.{unit_task};
    ghost use Rattle.wsrep_watch.specs.Heard.{EndsAt};
    ghost use Rattle.node_core.specs.declared.answers.Taken.TheVariants as taken;
    ghost use Rattle.node_core.specs.Answers.{taken_answer, certified_answer, started_answer, GivesTask, advanced_answer, reported_answer, status_answer};
    ghost use Rattle.node_core.specs.Giving.{CanGive, Gives};
    ghost use Rattle.node_core.specs.Joining.{GiftFits, Received, IsFaultOf};
    ghost use Rattle.node_core.specs.Memory.{CallWants, TakeWants, CertifyWants, starts, StartWants, ReportWants};
    ghost use Rattle.node_core.specs.Stands.{IsStanding, Stands, Does, DoneOver, Unchanged, quietly, plain_of};
    ghost use Rattle.node_core.specs.Watching.{HasHeard, Hears, note_due, told_by};

    /// A node at its start, connected, with this state id and member number, and with a ring of
    /// events of so many bytes.
    pub fn new(
        alloc: Global,
        id: StateId,
        member: u32,
        gcache: u64,
        watcher: Option<W>,
    ) -> Result<NodeOf<W>, NoMemory>
        requires id { id ≢ nil_id }
        requires ring { gcache ≤ MOST_RING_BYTES }
        ensures start { IfOk result (λ node. plain_of node.parts ≡ start_node gcache id member) }
        ensures stands { IfOk result (λ node. (order : List Ordered) → Stands order node.parts) }
        ensures watcher { IfOk result (λ node. node.watcher ≡ watcher) }
    {
        Ok(NodeOf {
            parts: NodeParts::new(alloc, id, member, gcache)?,
            watcher,
        })
    }

    /// What a session, 1 to 32, is answered when it makes a call. An answer that waits, and one
    /// that comes before the table of calls, takes no memory; nor do `read`, `poll`, a begin within
    /// a transaction, a statement or a commit without one, a commit of nothing, and a `rollback`
    /// where no fragment was ever sent.
    pub fn client(&mut self, session: u8, call: &Call) -> Result<Reply, NoMemory>
        requires stands { IsStanding self.old.parts }
        requires session { (1 ≤ session) × (session ≤ 32) }
        requires names { IsTrue (call_fits call.now) }
        requires serial { self.old.parts.at.serial < NUMBERS_END }
        requires begin { self.old.parts.at.begin < NUMBERS_END }
        ensures ok { IfOk result
            (Does (λ order n. client order n session call.now) self.old.parts self.new.parts) }
        ensures err { OnErr result (Unchanged self.old.parts self.new.parts) }
        ensures open { OnErr result (CallWants (plain_of self.old.parts) session call.now) }
        ensures watcher { self.new.watcher ≡ self.old.watcher }
    {
        self.parts.client(session, call)
    }

    /// The oldest message that waits to be ordered; None exactly where none does.
    pub fn first_out(&self) -> Option<&Message>
        ensures { option_copied result ≡ oldest self.now.parts.queue.outbox }
    {
        self.parts.queue.first_out()
    }

    /// The oldest message that waits counts as ordered.
    pub fn sent_out(&mut self)
        requires { 0 < length self.old.parts.queue.outbox }
        ensures does { Does (quietly sent_out) self.old.parts self.new.parts tt }
        ensures watcher { self.new.watcher ≡ self.old.watcher }
    {
        self.parts.sent_out();
    }

    /// Takes the next event of the order, which is this one.
    pub fn take(&mut self, event: &Event) -> Result<Taken, NoMemory>
        requires stands { IsStanding self.old.parts }
        requires number { self.old.parts.at.taken < NUMBERS_END }
        requires members { HasFewMembers event.now }
        ensures ok { IfOk result
            (λ r. (order : List Ordered)
            → slice_get order self.old.parts.at.taken ≡ Some event.now
            → Stands order self.old.parts
            → DoneOver order (take_step order) self.old.parts self.new.parts (taken_answer r)) }
        ensures split { IfOk result
            (λ r. (n : ℕ) → r ≡ taken.Split n → n ≡ self.old.parts.at.taken + 1) }
        ensures err { OnErr result (Unchanged self.old.parts self.new.parts) }
        ensures there { OnErr result (TakeWants (plain_of self.old.parts)) }
        ensures watcher { self.new.watcher ≡ self.old.watcher }
    {
        self.parts.take(event)
    }

    /// Certifies the next event that was taken, and tells the transaction that sent it.
    pub fn certify(&mut self) -> Result<Certified, NoMemory>
        requires stands { IsStanding self.old.parts }
        ensures ok { IfOk result
            (λ r. Does (λ order n. certify_step order n) self.old.parts self.new.parts
            (certified_answer r)) }
        ensures err { OnErr result (Unchanged self.old.parts self.new.parts) }
        ensures some { OnErr result (CertifyWants (plain_of self.old.parts)) }
        ensures watcher { self.new.watcher ≡ self.old.watcher }
    {
        self.parts.certify()
    }

    /// Starts the unit of the passed commit with this number: the transactions whose locks touch
    /// it are aborted, and a rollback is sent for each that ends and ever sent a fragment. All
    /// memory is taken first; a unit that cannot start yet takes none.
    pub fn start(&mut self, number: u64) -> Result<Started, NoMemory>
        requires stands { IsStanding self.old.parts }
        requires serial { self.old.parts.at.serial < NUMBERS_END }
        ensures ok { IfOk result
            (λ r. Does (λ order n. start_step order n number) self.old.parts self.new.parts
            (started_answer number r)) }
        ensures task { IfOk result
            (λ r. (order : List Ordered) → Stands order self.old.parts
            → GivesTask order number r) }
        ensures err { OnErr result (Unchanged self.old.parts self.new.parts) }
        ensures clear { OnErr result
            ((order : List Ordered) → Stands order self.old.parts
            → StartWants order (plain_of self.old.parts) number) }
        ensures watcher { self.new.watcher ≡ self.old.watcher }
    {
        self.parts.start(number)
    }

    /// Whether the unit of the passed commit with this number can start now. It takes no memory.
    pub fn can_start(&self, number: u64) -> bool
        ensures { (order : List Ordered) → Stands order self.now.parts
            → result ≡ starts order (plain_of self.now.parts) number }
    {
        self.parts.can_start(number)
    }

    /// Takes the work of a started unit. The value comes back where its number is no such unit.
    pub fn finish(&mut self, done: Done) -> Result<u64, Done>
        requires work { (order : List Ordered) → Stands order self.old.parts
            → IsTrue (is_started (get self.old.parts.units.units done.number))
            → done ≡ unit_task order done.number }
        ensures ok { IfOk result
            (λ number. Does (λ order n. finish_step n done.number) self.old.parts self.new.parts
            (answer.Finished number)) }
        ensures err { IfErr result (λ back. back ≡ done) }
        ensures none { OnErr result
            (is_started (get self.old.parts.units.units done.number) ≡ false) }
        ensures same { OnErr result (self.new.parts ≡ self.old.parts) }
        ensures watcher { self.new.watcher ≡ self.old.watcher }
    {
        self.parts.finish(done)
    }

    /// Commits the next number that was certified, if it is ready, and tells the watcher so. It
    /// takes no memory.
    pub fn advance(&mut self) -> Advanced
        requires stands { IsStanding self.old.parts }
        ensures does { Does (λ order n. advance_step order n) self.old.parts self.new.parts
            (advanced_answer result) }
        ensures hears { (order : List Ordered) → Stands order self.old.parts
            → Hears W.notes (note_due order result) self.old.watcher self.new.watcher }
        ensures heard { (first : List NoteOf) (order : List Ordered) → Stands order self.old.parts
            → HasHeard first order self.old.parts.at.committed (told_by W.notes self.old.watcher)
            → HasHeard first order self.new.parts.at.committed
            (told_by W.notes self.new.watcher) }
        ensures there { is_some self.new.watcher ≡ is_some self.old.watcher }
    {
        let (advanced, note) = self.parts.advance();
        tell(&mut self.watcher, note);
        advanced
    }

    /// Reports what the node has committed: a report of it waits to be ordered. Only that takes
    /// memory.
    pub fn report(&mut self) -> Result<Reported, NoMemory>
        ensures ok { IfOk result
            (λ r. Does (λ order n. report_step n) self.old.parts self.new.parts
            (reported_answer r)) }
        ensures err { OnErr result (Unchanged self.old.parts self.new.parts) }
        ensures sends { OnErr result (ReportWants (plain_of self.old.parts)) }
        ensures watcher { self.new.watcher ≡ self.old.watcher }
    {
        self.parts.report()
    }

    /// Where the node stands, and how much it keeps for certification. It takes no memory.
    pub fn status(&self) -> Status
        requires stands { IsStanding self.now.parts }
        ensures { (order : List Ordered) → Stands order self.now.parts
            → status_answer result ≡ (status_step order (plain_of self.now.parts)).0 }
    {
        self.parts.status()
    }

    /// The node leaves its group, and what it sent and did not take is lost to it. Its
    /// transactions end, but for those whose commit is taken, and their sessions are told so when
    /// they call next. Its watcher comes back, told that it ends where the node has committed;
    /// None exactly where the node has none. It takes no memory.
    pub fn leave(&mut self) -> Option<W>
        requires stands { IsStanding self.old.parts }
        requires left { is_left self.old.parts.at.phase ≡ false }
        ensures does { Does (quietly left_node) self.old.parts self.new.parts tt }
        ensures gone { self.new.watcher ≡ None }
        ensures there { is_some result ≡ is_some self.old.watcher }
        ensures notes { told_by W.notes result ≡ told_by W.notes self.old.watcher }
        ensures end { EndsAt self.new.parts.at.committed (told_by W.end result) }
    {
        self.parts.leave();
        self.end_watch()
    }

    /// The node joins its group again, as a new member that enters with this view, and waits for
    /// the state that it misses. Where it joins fresh, it keeps nothing of its own. It takes no
    /// memory.
    pub fn join(&mut self, fresh: bool, member: u32, view: u64)
        requires stands { IsStanding self.old.parts }
        requires left { is_left self.old.parts.at.phase ≡ true }
        requires rests { IsAtRest (plain_of self.old.parts) }
        requires member { self.old.parts.at.member < member }
        ensures does { Does (quietly (joined_node fresh member view)) self.old.parts
            self.new.parts tt }
        ensures watcher { self.new.watcher ≡ self.old.watcher }
    {
        self.parts.join(fresh, member, view);
    }

    /// What a node that joins misses from this number on: the events, exactly where `same` says
    /// that both have the same state and the ring has that number; else a snapshot of what the node
    /// has committed, if that is all that it certified. It costs the events, or the rows and the
    /// commits that are kept.
    pub fn give(&self, from: u64, same: bool) -> Result<Gift, GiveFault>
        requires stands { CanGive self.now.parts }
        requires connected { is_connected self.now.parts.at.phase ≡ true }
        requires few { self.now.parts.at.taken ≤ MOST_EVENTS }
        ensures { (order : List Ordered) → Stands order self.now.parts
            → Gives order (plain_of self.now.parts) from same result }
    {
        self.parts.give(from, same)
    }

    /// Takes what another node gave, and is connected. It gives the last number that was taken. The
    /// events are taken all or none; so is a snapshot, which is refused at its first fault.
    pub fn receive(&mut self, gift: &Gift) -> Result<u64, ReceiveFault>
        requires stands { IsStanding self.old.parts }
        requires joining { is_joining self.old.parts.at.phase ≡ true }
        requires rests { IsAtRest (plain_of self.old.parts) }
        requires fits { GiftFits gift.now (plain_of self.old.parts) }
        ensures ok { IfOk result (λ last. Received gift.now self.old.parts self.new.parts last) }
        ensures err { OnErr result (Unchanged self.old.parts self.new.parts) }
        ensures fault { IfErr result (λ fault. IsFaultOf gift.now fault) }
        ensures watcher { self.new.watcher ≡ self.old.watcher }
    {
        self.parts.receive(gift)
    }

    /// The events that the node holds for one that joins: the youngest ones that it took since its
    /// start or its last snapshot, as many as fit. It takes no memory.
    pub fn ring(&self) -> &Ring
        ensures { (order : List Ordered) → Stands order self.now.parts
            → result.now ≡ ring_of order (plain_of self.now.parts) }
    {
        &self.parts.ring
    }

    /// The watcher, which is told that it ends where the node has committed; None exactly where
    /// the node has none. It takes no memory.
    pub fn end_watch(&mut self) -> Option<W>
        ensures parts { self.new.parts ≡ self.old.parts }
        ensures gone { self.new.watcher ≡ None }
        ensures there { is_some result ≡ is_some self.old.watcher }
        ensures notes { told_by W.notes result ≡ told_by W.notes self.old.watcher }
        ensures end { EndsAt self.old.parts.at.committed (told_by W.end result) }
    {
        match self.watcher.take() {
            Some(mut watcher) => {
                watcher.ended(self.parts.at.committed);
                Some(watcher)
            }
            None => None,
        }
    }

    /// Where the node is.
    pub fn place(&self) -> Place
        ensures phase { result.phase ≡ self.now.parts.at.phase }
        ensures member { result.member ≡ self.now.parts.at.member }
        ensures view { result.view ≡ self.now.parts.at.view }
        ensures id { result.id ≡ self.now.parts.id }
        ensures outbox { result.outbox ≡ length self.now.parts.queue.outbox }
    {
        let parts = &self.parts;
        Place {
            phase: parts.at.phase,
            member: parts.at.member,
            view: parts.at.view,
            id: parts.id,
            outbox: parts.queue.outbox_len(),
        }
    }

    /// Whether the node is connected. One that is not takes nothing.
    pub fn is_connected(&self) -> bool
        ensures { result ≡ is_connected self.now.parts.at.phase }
    {
        self.parts.is_connected()
    }

    /// The last number that the node has taken from the order.
    pub fn taken(&self) -> u64
        ensures { result ≡ self.now.parts.at.taken }
    {
        self.parts.at.taken
    }

    /// The last number that the node has certified.
    pub fn certified(&self) -> u64
        ensures { result ≡ self.now.parts.at.certified }
    {
        self.parts.at.certified
    }

    /// How far the node has committed.
    pub fn committed(&self) -> u64
        ensures { result ≡ self.now.parts.at.committed }
    {
        self.parts.at.committed
    }

    /// The committed row.
    pub fn committed_row(&self, id: &RowId) -> Option<Row>
        ensures { (order : List Ordered) → Stands order self.now.parts
            → result ≡ get (rows_at order self.now.parts.at.committed) id.now }
    {
        self.parts.rows.committed(id)
    }

    /// The committed rows, by table and then by row.
    pub fn rows(&self) -> Result<RowList, NoMemory>
        ensures { IfOk result
            (λ list. (order : List Ordered) → Stands order self.now.parts
            → list ≡ row_items (rows_at order self.now.parts.at.committed)) }
    {
        self.parts.rows.walk()
    }
}

ghost use Rattle.wsrep_watch.specs.declared.note.Note.{Note as NoteOf};
ghost use Rattle.node_core.specs.Watching.{Hears};

// The watcher, if there is one, hears the note, if there is one.
fn tell<W: Watcher>(watcher: &mut Option<W>, note: Option<Note>)
    ensures hears { Hears W.notes note watcher.old watcher.new }
    ensures there { is_some watcher.new ≡ is_some watcher.old }
{
    let Some(note) = note else {
        return;
    };
    match watcher {
        Some(watcher) => watcher.heard(note),
        None => {}
    }
}
