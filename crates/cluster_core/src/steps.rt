ghost use Rattle.std.specs.Prelude.{◌≡◌, ◌≤◌, ◌<◌, ◌+◌, length, slice_get, Some, IfOk, IfErr, IsTrue};
ghost use Rattle.wsrep_base.specs.declared.limits.TheConstants.{MOST_EVENTS};
ghost use Rattle.order_event.specs.declared.step.Act.TheVariants as act;
ghost use Rattle.order_event.specs.Fits.{act_fits};
ghost use Rattle.node_meaning.specs.Node.{ModelNode};
ghost use Rattle.node_meaning.specs.Cluster.{node_orders, orders_at, step_at};
ghost use Rattle.node_core.specs.Stands.{plain_of};
ghost use Rattle.node_laws.specs.Given.{CanGoOn};
ghost use Rattle.cluster_core.specs.Steps.{has_session, FailedBy, HasGroupCause};
ghost use Rattle.cluster_core.specs.Acts.{IsKept, AreKept, Acted, Failed, cluster_of, nodes_of};
ghost use Rattle.cluster_core.specs.Seated.{seen};
ghost use Rattle.cluster_core.specs.Transfers.{MayEnter, IsAlone};

use crate::drain::drain;
use crate::fault::StepFault;
use crate::ranges::message_in_range;
use crate::seat::{Seat, has_left};
use crate::transfer::transfer;
use group_order::Group;
use order_event::{Act, Answer};
use wsrep_watch::Watcher;

/// What a step of the node at this place is answered.
pub(crate) fn step_at<G: Group, W: Watcher>(
    seats: &mut Vec<Seat<W>>,
    at: usize,
    group: &mut G,
    act: &Act,
) -> Result<Answer, StepFault>
    requires at { at < length seats.old.items }
    requires kept { AreKept (G.order group.old) seats.old.items }
    requires act { has_session act.now × IsTrue (act_fits act.now) }
    requires events { length (G.order group.old) + orders_at
        (slice_get (nodes_of seats.old.items) at) act.now ≤ MOST_EVENTS }
    requires counts { (n : ModelNode) → slice_get (nodes_of seats.old.items) at ≡ Some n
        → CanGoOn n }
    requires enters { (n : ModelNode) → slice_get (nodes_of seats.old.items) at ≡ Some n
        → MayEnter (G.order group.old) n }
    ensures ok { IfOk result
        (λ answer. (answer, cluster_of (G.order group.new) (nodes_of seats.new.items))
        ≡ step_at (cluster_of (G.order group.old) (nodes_of seats.old.items)) at
        (slice_get (nodes_of seats.old.items) at) act.now) }
    ensures err { IfErr result
        (FailedBy act.now (at + 1) (cluster_of (G.order group.old) (nodes_of seats.old.items))
        (cluster_of (G.order group.new) (nodes_of seats.new.items))) }
    ensures kept { AreKept (G.order group.new) seats.new.items }
    ensures cause { HasGroupCause (G.faults group.old) (G.faults group.new) result }
{
    match act {
        Act::Transfer(donor) => Ok(transfer(seats, at, *donor)?),
        _ => step_on(&mut seats[at], group, act),
    }
}

/// What a step of the node is answered, which needs no other node.
pub(crate) fn step_on<G: Group, W: Watcher>(
    seat: &mut Seat<W>,
    group: &mut G,
    act: &Act,
) -> Result<Answer, StepFault>
    requires kept { IsKept (G.order group.old) (seen seat.old) }
    requires act { has_session act.now × IsTrue (act_fits act.now) }
    requires events { length (G.order group.old)
        + node_orders act.now (plain_of seat.old.node.parts)
        ≤ MOST_EVENTS }
    requires counts { CanGoOn (plain_of seat.old.node.parts) }
    requires enters { MayEnter (G.order group.old) (plain_of seat.old.node.parts) }
    requires alone { IsAlone act.now }
    ensures ok { IfOk result
        (Acted act.now (G.order group.old) (G.order group.new) (seen seat.old) (seen seat.new)) }
    ensures err { IfErr result
        (Failed act.now (G.order group.old) (G.order group.new) (seen seat.old) (seen seat.new)) }
    ensures cause { HasGroupCause (G.faults group.old) (G.faults group.new) result }
{
    match act {
        Act::Client(session, call) => Ok(seat.client(*session, call)?),
        Act::Order => order_first(seat, group),
        Act::Take => take_next(seat, group),
        Act::Certify => Ok(seat.certify()?),
        Act::Start(number) => Ok(seat.start(*number)?),
        Act::Finish(number) => Ok(seat.finish(*number)),
        Act::Advance => Ok(seat.advance()),
        Act::Drain => drain(seat, group),
        Act::Report => Ok(seat.report()?),
        Act::Status => Ok(seat.status()),
        Act::Leave => leave(seat, group),
        Act::Join(fresh) => join(seat, group, *fresh),
        Act::Transfer(_) => unreachable!(),
    }
}

/// The oldest message that waits takes the next number of the order.
pub(crate) fn order_first<G: Group, W: Watcher>(
    seat: &mut Seat<W>,
    group: &mut G,
) -> Result<Answer, StepFault>
    requires kept { IsKept (G.order group.old) (seen seat.old) }
    requires events { length (G.order group.old)
        + node_orders act.Order (plain_of seat.old.node.parts)
        ≤ MOST_EVENTS }
    ensures ok { IfOk result
        (Acted act.Order (G.order group.old) (G.order group.new) (seen seat.old) (seen seat.new)) }
    ensures err { IfErr result
        (Failed act.Order (G.order group.old) (G.order group.new) (seen seat.old) (seen seat.new)) }
    ensures cause { HasGroupCause (G.faults group.old) (G.faults group.new) result }
{
    let member = seat.node.place().member;
    let Some(message) = seat.node.first_out() else {
        return Ok(Answer::Nothing);
    };
    message_in_range(message);
    let number = group.order(member, message)?;
    seat.node.sent_out();
    Ok(Answer::Ordered(number))
}

/// A view without the node's member is ordered, and the node leaves. Its watcher is told the end
/// and dropped.
fn leave<G: Group, W: Watcher>(seat: &mut Seat<W>, group: &mut G) -> Result<Answer, StepFault>
    requires kept { IsKept (G.order group.old) (seen seat.old) }
    requires events { length (G.order group.old)
        + node_orders act.Leave (plain_of seat.old.node.parts) ≤ MOST_EVENTS }
    ensures ok { IfOk result (Acted act.Leave (G.order group.old) (G.order group.new)
        (seen seat.old) (seen seat.new)) }
    ensures err { IfErr result (Failed act.Leave (G.order group.old) (G.order group.new)
        (seen seat.old) (seen seat.new)) }
    ensures cause { HasGroupCause (G.faults group.old) (G.faults group.new) result }
{
    let place = seat.node.place();
    if has_left(place.phase) {
        return Ok(Answer::Disconnected);
    }
    let number = group.leave(place.member)?;
    let _watcher = seat.node.leave();
    Ok(Answer::Left(number))
}

/// A view with a new member is ordered, and the node waits for what it misses.
fn join<G: Group, W: Watcher>(
    seat: &mut Seat<W>,
    group: &mut G,
    fresh: bool,
) -> Result<Answer, StepFault>
    requires kept { IsKept (G.order group.old) (seen seat.old) }
    requires events { length (G.order group.old)
        + node_orders (act.Join fresh) (plain_of seat.old.node.parts) ≤ MOST_EVENTS }
    requires enters { MayEnter (G.order group.old) (plain_of seat.old.node.parts) }
    ensures ok { IfOk result (Acted (act.Join fresh) (G.order group.old) (G.order group.new)
        (seen seat.old) (seen seat.new)) }
    ensures err { IfErr result (Failed (act.Join fresh) (G.order group.old) (G.order group.new)
        (seen seat.old) (seen seat.new)) }
    ensures cause { HasGroupCause (G.faults group.old) (G.faults group.new) result }
{
    let place = seat.node.place();
    if !has_left(place.phase) {
        return Ok(Answer::StillJoined);
    }
    let taken = seat.node.taken();
    let committed = seat.node.committed();
    if taken != committed {
        return Ok(Answer::NotDrained(taken, committed));
    }
    let (view, member) = group.join()?;
    seat.node.join(fresh, member, view);
    Ok(Answer::Joining(view, member))
}

/// The next event of the order is taken, where there is one. A node that is not connected asks the
/// group for none.
pub(crate) fn take_next<G: Group, W: Watcher>(
    seat: &mut Seat<W>,
    group: &mut G,
) -> Result<Answer, StepFault>
    requires kept { IsKept (G.order group.old) (seen seat.old) }
    requires events { length (G.order group.old) ≤ MOST_EVENTS }
    ensures ok { IfOk result
        (Acted act.Take (G.order group.old) (G.order group.new) (seen seat.old) (seen seat.new)) }
    ensures err { IfErr result
        (Failed act.Take (G.order group.old) (G.order group.new) (seen seat.old) (seen seat.new)) }
    ensures cause { HasGroupCause (G.faults group.old) (G.faults group.new) result }
{
    if !seat.node.is_connected() {
        return Ok(Answer::Nothing);
    }
    match group.event(seat.node.taken() + 1)? {
        Some(event) => Ok(seat.take(&event)?),
        None => Ok(Answer::Nothing),
    }
}
