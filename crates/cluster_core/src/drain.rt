ghost use Rattle.std.specs.Prelude.{◌≡◌, ◌≤◌, ◌+◌, length, IfOk, IfErr, OnErr, OnOk};
ghost use Rattle.wsrep_base.specs.declared.limits.TheConstants.{MOST_EVENTS};
ghost use Rattle.order_event.specs.declared.step.Act.TheVariants as act;
ghost use Rattle.node_meaning.specs.Cluster.{node_orders};
ghost use Rattle.node_core.specs.Stands.{plain_of};
ghost use Rattle.node_laws.specs.Given.{CanGoOn};
ghost use Rattle.cluster_core.specs.declared.fault.StepFault.TheVariants as fault;
ghost use Rattle.cluster_core.specs.Seated.{IsSomewhere, seen};
ghost use Rattle.cluster_core.specs.Steps.{HasGroupCause};
ghost use Rattle.cluster_core.specs.Acts.{IsKept, Acted, Failed};
ghost use Rattle.cluster_core.specs.Drain.{Sent, SentFew, Takes, TakesFew, Certifies, CertifiesFew, Commits, CommitsFew, IsSomewhereShort, HasSerials};

use crate::fault::StepFault;
use crate::seat::Seat;
use crate::steps::{order_first, take_next};
use group_order::Group;
use order_event::Answer;
use wsrep_base::NoMemory;
use wsrep_watch::Watcher;

/// All that waits is ordered, and then everything is taken, certified and committed. A fault on
/// the way leaves what was done before it.
pub(crate) fn drain<G: Group, W: Watcher>(
    seat: &mut Seat<W>,
    group: &mut G,
) -> Result<Answer, StepFault>
    requires kept { IsKept (G.order group.old) (seen seat.old) }
    requires events { length (G.order group.old)
        + node_orders act.Drain (plain_of seat.old.node.parts)
        ≤ MOST_EVENTS }
    requires counts { CanGoOn (plain_of seat.old.node.parts) }
    ensures ok { IfOk result
        (Acted act.Drain (G.order group.old) (G.order group.new) (seen seat.old) (seen seat.new)) }
    ensures err { IfErr result
        (Failed act.Drain (G.order group.old) (G.order group.new) (seen seat.old) (seen seat.new)) }
    ensures cause { HasGroupCause (G.faults group.old) (G.faults group.new) result }
{
    let waiting = seat.node.place().outbox;
    order_all(seat, group, waiting)?;
    let untaken = group.len().saturating_sub(seat.node.taken());
    take_rest(seat, group, untaken)?;
    let uncertified = seat.node.taken().saturating_sub(seat.node.certified());
    certify_all(seat, uncertified)?;
    let uncommitted = seat.node.certified().saturating_sub(seat.node.committed());
    commit_all(seat, uncommitted)?;
    Ok(Answer::At(seat.node.committed()))
}

// So many messages take the next numbers of the order, the oldest first.
fn order_all<G: Group, W: Watcher>(
    seat: &mut Seat<W>,
    group: &mut G,
    count: u64,
) -> Result<(), StepFault>
    requires kept { IsKept (G.order group.old) (seen seat.old) }
    requires events { length (G.order group.old) + length seat.old.node.parts.queue.outbox
        ≤ MOST_EVENTS }
    ensures ok { OnOk result
        (Sent count (G.order group.old) (G.order group.new) (seen seat.old) (seen seat.new)) }
    ensures err { IfErr result
        (SentFew count (G.order group.old) (G.order group.new) (seen seat.old) (seen seat.new)) }
    ensures cause { HasGroupCause (G.faults group.old) (G.faults group.new) result }
{
    for _ in 0..count {
        order_first(seat, group)?;
    }
    Ok(())
}

// So many events are taken, all that there are; none where the node is not connected.
fn take_rest<G: Group, W: Watcher>(
    seat: &mut Seat<W>,
    group: &mut G,
    count: u64,
) -> Result<(), StepFault>
    requires kept { IsKept (G.order group.old) (seen seat.old) }
    requires events { length (G.order group.old) ≤ MOST_EVENTS }
    ensures order { G.order group.new ≡ G.order group.old }
    ensures ok { OnOk result (Takes count (G.order group.old) (seen seat.old) (seen seat.new)) }
    ensures err { IfErr result
        (TakesFew count (G.order group.old) (seen seat.old) (seen seat.new)) }
    ensures cause { HasGroupCause (G.faults group.old) (G.faults group.new) result }
{
    if seat.node.is_connected() {
        take_all(seat, group, count)
    } else {
        Ok(())
    }
}

// So many events are taken.
fn take_all<G: Group, W: Watcher>(
    seat: &mut Seat<W>,
    group: &mut G,
    count: u64,
) -> Result<(), StepFault>
    requires kept { IsKept (G.order group.old) (seen seat.old) }
    requires events { length (G.order group.old) ≤ MOST_EVENTS }
    ensures order { G.order group.new ≡ G.order group.old }
    ensures ok { OnOk result (Takes count (G.order group.old) (seen seat.old) (seen seat.new)) }
    ensures err { IfErr result
        (TakesFew count (G.order group.old) (seen seat.old) (seen seat.new)) }
    ensures cause { HasGroupCause (G.faults group.old) (G.faults group.new) result }
{
    for _ in 0..count {
        take_next(seat, group)?;
    }
    Ok(())
}

// So many events are certified.
fn certify_all<W: Watcher>(seat: &mut Seat<W>, count: u64) -> Result<(), NoMemory>
    requires seated { IsSomewhere (seen seat.old) }
    ensures ok { OnOk result (Certifies count (seen seat.old) (seen seat.new)) }
    ensures err { OnErr result (CertifiesFew count (seen seat.old) (seen seat.new) fault.NoMemory) }
{
    for _ in 0..count {
        seat.certify()?;
    }
    Ok(())
}

// So many numbers are committed.
fn commit_all<W: Watcher>(seat: &mut Seat<W>, count: u64) -> Result<(), NoMemory>
    requires seated { IsSomewhereShort (seen seat.old) }
    requires serials { HasSerials (seen seat.old) }
    ensures ok { OnOk result (Commits count (seen seat.old) (seen seat.new)) }
    ensures err { OnErr result (CommitsFew count (seen seat.old) (seen seat.new) fault.NoMemory) }
{
    for _ in 0..count {
        commit_one(seat)?;
    }
    Ok(())
}

// The next number is committed, its unit started and finished where it has one.
fn commit_one<W: Watcher>(seat: &mut Seat<W>) -> Result<(), NoMemory>
    requires seated { IsSomewhereShort (seen seat.old) }
    requires serials { HasSerials (seen seat.old) }
    ensures ok { OnOk result (Commits 1 (seen seat.old) (seen seat.new)) }
    ensures err { OnErr result (CommitsFew 1 (seen seat.old) (seen seat.new) fault.NoMemory) }
{
    let number = seat.node.committed() + 1;
    seat.start(number)?;
    seat.finish(number);
    seat.advance();
    Ok(())
}
