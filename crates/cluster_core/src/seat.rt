ghost use Rattle.std.specs.Prelude.{◌≡◌, ◌≢◌, ◌≤◌, ◌<◌, List, IfOk, OnOk, OnErr, IsTrue};

use apply_unit::Done;
use node_core::{
    Advanced, Certified, Gift, NodeOf, ReceiveFault, Reported, Started, Status, Taken,
};
use node_meaning::Phase;
use order_event::{Answer, Event};
use row_model::Call;
use std::alloc::Global;
use std::collections::HashMap;
use wsrep_base::{NoMemory, StateId};
use wsrep_watch::Watcher;

/// A node of a cluster, and what the work of its started units gives.
#[derive(Drop)]
pub(crate) struct Seat<W: Watcher> {
    pub(crate) node: NodeOf<W>,
    // By the numbers of the units; an entry exactly where a unit is started and not finished.
    pub(crate) done: HashMap<u64, Done>,
}

impl<W: Watcher> Seat<W> {
    ghost use Rattle.wsrep_base.specs.StateId.{nil_id};
    ghost use Rattle.row_model.specs.Names.{call_fits};
    ghost use Rattle.order_event.specs.declared.event.Event.{Event as Ordered};
    ghost use Rattle.order_event.specs.declared.step.Act.TheVariants as act;
    ghost use Rattle.order_event.specs.Spelling.{HasFewMembers};
    ghost use Rattle.node_meaning.specs.Node.{start_node};
    ghost use Rattle.node_meaning.specs.Steps.{node_step};
    ghost use Rattle.node_core.specs.Stands.{plain_of};
    ghost use Rattle.node_core.specs.Memory.{CallWants, TakeWants, CertifyWants, StartWants, ReportWants};
    ghost use Rattle.node_laws.specs.Given.{CanGoOn};
    ghost use Rattle.cluster_core.specs.Seated.{IsSeated, IsSomewhere, SeatDoes, SeatDone, SeatTakes, SeatUnchanged, seen};
    ghost use Rattle.cluster_core.specs.Transfers.{Receives, TakesGift};
    ghost use Rattle.std.specs.HashMap.{spare};

    /// A node at its start, with no unit.
    pub(crate) fn new(
        alloc: Global,
        id: StateId,
        member: u32,
        gcache: u64,
        watcher: Option<W>,
    ) -> Result<Seat<W>, NoMemory>
        requires id { id ≢ nil_id }
        requires ring { gcache ≤ MOST_RING_BYTES }
        ensures start { IfOk result (λ seat. plain_of seat.node.parts
            ≡ start_node gcache id member) }
        ensures seated { IfOk result (λ seat. (order : List Ordered) → IsSeated order (seen seat)) }
    {
        Ok(Seat {
            node: NodeOf::new(alloc, id, member, gcache, watcher)?,
            done: HashMap::new(alloc),
        })
    }

    /// What a session's call is answered.
    pub(crate) fn client(&mut self, session: u8, call: &Call) -> Result<Answer, NoMemory>
        requires seated { IsSomewhere (seen self.old) }
        requires session { (1 ≤ session) × (session ≤ 32) }
        requires names { IsTrue (call_fits call.now) }
        requires counts { CanGoOn (plain_of self.old.node.parts) }
        ensures ok { IfOk result (SeatDoes
            (λ order n. node_step order n (act.Client session call.now))
            (seen self.old) (seen self.new)) }
        ensures err { OnErr result (SeatUnchanged (seen self.old) (seen self.new)) }
        ensures memory { OnErr result (CallWants (plain_of self.old.node.parts) session call.now) }
    {
        let reply = self.node.client(session, call)?;
        Ok(Answer::Client(reply))
    }

    /// The next event of the order is taken.
    pub(crate) fn take(&mut self, event: &Event) -> Result<Answer, NoMemory>
        requires seated { IsSomewhere (seen self.old) }
        requires number { self.old.node.parts.at.taken < NUMBERS_END }
        requires members { HasFewMembers event.now }
        ensures ok { IfOk result (SeatTakes event.now (seen self.old) (seen self.new)) }
        ensures err { OnErr result (SeatUnchanged (seen self.old) (seen self.new)) }
        ensures memory { OnErr result (TakeWants (plain_of self.old.node.parts)) }
    {
        let taken = self.node.take(event)?;
        Ok(taken_answer(taken))
    }

    /// The next event that was taken is certified.
    pub(crate) fn certify(&mut self) -> Result<Answer, NoMemory>
        requires seated { IsSomewhere (seen self.old) }
        ensures ok { IfOk result
            (SeatDoes (λ order n. node_step order n act.Certify) (seen self.old) (seen self.new)) }
        ensures err { OnErr result (SeatUnchanged (seen self.old) (seen self.new)) }
        ensures memory { OnErr result (CertifyWants (plain_of self.old.node.parts)) }
    {
        let certified = self.node.certify()?;
        Ok(certified_answer(certified))
    }

    /// The unit of the commit with this number is started, and its work done.
    pub(crate) fn start(&mut self, number: u64) -> Result<Answer, NoMemory>
        requires seated { IsSomewhere (seen self.old) }
        requires serial { self.old.node.parts.at.serial < NUMBERS_END }
        ensures ok { IfOk result
            (SeatDoes (λ order n. node_step order n (act.Start number))
            (seen self.old) (seen self.new)) }
        ensures err { OnErr result (SeatUnchanged (seen self.old) (seen self.new)) }
        ensures memory { OnErr result ((order : List Ordered) → IsSeated order (seen self.old) →
            StartWants order (plain_of self.old.node.parts) number) }
    {
        self.make_room(number)?;
        let started = self.node.start(number)?;
        Ok(keep(&mut self.done, number, started))
    }

    // Makes room for the work of the unit, where it can start.
    fn make_room(&mut self, number: u64) -> Result<(), NoMemory>
        ensures room { OnOk result ((order : List Ordered) → IsSeated order (seen self.old) →
            StartWants order (plain_of self.old.node.parts) number → 0 < spare self.new.done) }
        ensures same { SeatUnchanged (seen self.old) (seen self.new) }
        ensures memory { OnErr result ((order : List Ordered) → IsSeated order (seen self.old) →
            StartWants order (plain_of self.old.node.parts) number) }
    {
        if self.node.can_start(number) {
            self.done.reserve(1)?;
        }
        Ok(())
    }

    /// The work of the unit with this number is given to the node.
    pub(crate) fn finish(&mut self, number: u64) -> Answer
        requires seated { IsSomewhere (seen self.old) }
        ensures { SeatDoes (λ order n. node_step order n (act.Finish number))
            (seen self.old) (seen self.new) result }
    {
        let Some(done) = self.done.remove(&number) else {
            return Answer::NoUnit(number);
        };
        match self.node.finish(done) {
            Ok(number) => Answer::Finished(number),
            Err(_) => unreachable!(),
        }
    }

    /// The next number that was certified is committed.
    pub(crate) fn advance(&mut self) -> Answer
        requires seated { IsSomewhere (seen self.old) }
        ensures { SeatDoes (λ order n. node_step order n act.Advance)
            (seen self.old) (seen self.new) result }
    {
        advanced_answer(self.node.advance())
    }

    /// The node takes what another gave.
    pub(crate) fn receive(&mut self, gift: &Gift) -> Result<(), NoMemory>
        requires awaits { Receives gift.now (seen self.old) }
        ensures ok { OnOk result (TakesGift gift.now (seen self.old) (seen self.new)) }
        ensures err { OnErr result (SeatUnchanged (seen self.old) (seen self.new)) }
    {
        match self.node.receive(gift) {
            Ok(_) => Ok(()),
            Err(ReceiveFault::NoMemory) => Err(NoMemory),
            Err(ReceiveFault::Snap(_)) => unreachable!(),
        }
    }

    /// Where the node stands, and how much it keeps for certification.
    pub(crate) fn status(&self) -> Answer
        requires seated { IsSomewhere (seen self.now) }
        ensures { (order : List Ordered) → IsSeated order (seen self.now) → SeatDone order
            (λ n. node_step order n act.Status) (seen self.now) (seen self.now) result }
    {
        status_answer(self.node.status())
    }

    /// What the node has committed is reported.
    pub(crate) fn report(&mut self) -> Result<Answer, NoMemory>
        requires seated { IsSomewhere (seen self.old) }
        ensures ok { IfOk result
            (SeatDoes (λ order n. node_step order n act.Report) (seen self.old) (seen self.new)) }
        ensures err { OnErr result (SeatUnchanged (seen self.old) (seen self.new)) }
        ensures memory { OnErr result (ReportWants (plain_of self.old.node.parts)) }
    {
        let reported = self.node.report()?;
        Ok(reported_answer(reported))
    }
}

ghost use Rattle.std.specs.HashMap.{spare};
ghost use Rattle.std.specs.Prelude.{◌&&◌, ◌==◌, if◌then◌else◌};
ghost use Rattle.wsrep_base.specs.declared.limits.TheConstants.{MOST_RING_BYTES, NUMBERS_END};
ghost use Rattle.node_meaning.specs.Node.{is_left, is_joining};
ghost use Rattle.node_core.specs.Answers.{taken_answer, certified_answer, started_answer, advanced_answer, reported_answer, status_answer};
ghost use Rattle.node_core.specs.Memory.{is_start};
ghost use Rattle.cluster_core.specs.Seated.{KeepsTask};

/// Whether a node has left its group.
pub(crate) fn has_left(phase: Phase) -> bool
    ensures { result ≡ is_left phase }
{
    match phase {
        Phase::Left => true,
        Phase::Joining | Phase::Connected => false,
    }
}

/// Whether a node waits for the state that it misses.
pub(crate) fn is_joining(phase: Phase) -> bool
    ensures { result ≡ is_joining phase }
{
    match phase {
        Phase::Joining => true,
        Phase::Left | Phase::Connected => false,
    }
}

/// How many events a leave of a node in this phase orders.
pub(crate) fn leave_orders(phase: Phase) -> u64
    ensures { result ≡ (if is_left phase then 0 else 1) }
{
    if has_left(phase) { 0 } else { 1 }
}

/// How many events a join of a node orders that is in this phase, has taken up to the one number
/// and committed up to the other.
pub(crate) fn join_orders(phase: Phase, taken: u64, committed: u64) -> u64
    ensures { result ≡ (if is_left phase && taken == committed then 1 else 0) }
{
    if has_left(phase) && taken == committed {
        1
    } else {
        0
    }
}

fn taken_answer(taken: Taken) -> Answer
    ensures { result ≡ taken_answer taken }
{
    match taken {
        Taken::Took(number) => Answer::Took(number),
        Taken::Split(_) => Answer::Split,
        Taken::Away => Answer::Nothing,
    }
}

fn certified_answer(certified: Certified) -> Answer
    ensures { result ≡ certified_answer certified }
{
    match certified {
        Certified::Judged(number, judged) => Answer::Judged(number, judged),
        Certified::Nothing => Answer::Nothing,
    }
}

fn advanced_answer(advanced: Advanced) -> Answer
    ensures { result ≡ advanced_answer advanced }
{
    match advanced {
        Advanced::At(number) => Answer::At(number),
        Advanced::Nothing => Answer::Nothing,
        Advanced::NotReady(number) => Answer::NotReady(number),
    }
}

fn reported_answer(reported: Reported) -> Answer
    ensures { result ≡ reported_answer reported }
{
    match reported {
        Reported::Sent(number) => Answer::Reported(number),
        Reported::Disconnected => Answer::Disconnected,
        Reported::NotSynced => Answer::NotSynced,
    }
}

fn status_answer(status: Status) -> Answer
    ensures { result ≡ status_answer status }
{
    Answer::Status(
        status.taken,
        status.certified,
        status.committed,
        status.floor,
        status.index,
        status.open_trx,
    )
}

// The work of a unit that was started is done and kept. There is room for it.
fn keep(done: &mut HashMap<u64, Done>, number: u64, started: Started) -> Answer
    requires { IsTrue (is_start (started_answer number started)) → 0 < spare done.old }
    ensures answer { result ≡ started_answer number started }
    ensures kept { KeepsTask number started done.old.entries done.new.entries }
{
    match started {
        Started::Unit(task, victims) => {
            match done.insert(number, task.compute()) {
                Ok(_) => {}
                Err(_) => unreachable!(),
            }
            Answer::Started(number, victims)
        }
        Started::NotYet(earlier) => Answer::NotYet(earlier),
        Started::Local => Answer::Local(number),
        Started::NoUnit => Answer::NoUnit(number),
    }
}
