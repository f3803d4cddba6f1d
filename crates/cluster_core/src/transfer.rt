//! A node that joins takes the state that it misses from another one.
ghost use Rattle.std.specs.Prelude.{◌≡◌, ◌≤◌, ◌<◌, List, length, Ok, Some, None, IfOk, IfErr, OnErr, true};
ghost use Rattle.wsrep_base.specs.declared.limits.TheConstants.{MOST_EVENTS};
ghost use Rattle.order_event.specs.declared.event.Event.{Event as Ordered};
ghost use Rattle.node_meaning.specs.Node.{ModelNode, is_connected};
ghost use Rattle.node_meaning.specs.Joining.{by_snapshot, transfer_from};
ghost use Rattle.node_core.specs.declared.gift.GiveFault.TheVariants as fault;
ghost use Rattle.node_core.specs.Stands.{plain_of};
ghost use Rattle.cluster_core.specs.Transfers.{CanOffer, CanTransfer, IsJoiner, IsOffer, OfferWants, Transferred, NotTransferred};

use crate::seat::{Seat, is_joining};
use node_core::{Gift, GiveFault, NodeOf, Place};
use order_event::Answer;
use state_transfer::{Plan, plan};
use wsrep_base::NoMemory;
use wsrep_watch::Watcher;

/// What a node that joins is told, and what is handed over to it.
#[derive(Drop)]
pub(crate) struct Offer {
    pub(crate) answer: Answer,
    pub(crate) gift: Option<Gift>,
}

/// The node at this place takes what it misses from the node with this number.
pub(crate) fn transfer<W: Watcher>(
    seats: &mut Vec<Seat<W>>,
    at: usize,
    donor: u8,
) -> Result<Answer, NoMemory>
    requires at { at < length seats.old.items }
    requires able { (order : List Ordered) × CanTransfer order seats.old.items at }
    ensures ok { IfOk result (λ answer. (order : List Ordered)
        → CanTransfer order seats.old.items at
        → Transferred order at donor seats.old.items seats.new.items answer) }
    ensures err { OnErr result ((order : List Ordered) → CanTransfer order seats.old.items at
        → NotTransferred order at donor seats.old.items seats.new.items) }
{
    let joiner = seats[at].node.place();
    if !is_joining(joiner.phase) {
        return Ok(Answer::NotJoining);
    }
    let from = usize::from(donor.saturating_sub(1));
    if from >= seats.len() {
        return Ok(Answer::NoDonor);
    }
    let committed = seats[at].node.committed();
    let Offer { answer, gift } = offer_of(&seats[from].node, joiner, committed)?;
    let Some(gift) = gift else {
        return Ok(answer);
    };
    seats[at].receive(&gift)?;
    Ok(answer)
}

// What a donor hands over to a node that joins and has committed up to this number: the events that
// it misses, where the donor's ring has them, or else a snapshot.
fn offer_of<W: Watcher>(donor: &NodeOf<W>, joiner: Place, committed: u64) -> Result<Offer, NoMemory>
    requires able { (order : List Ordered) × CanOffer order donor.now.parts }
    requires committed { committed ≤ MOST_EVENTS }
    ensures ok { IfOk result (λ offer. (order : List Ordered) (n : ModelNode)
        → CanOffer order donor.now.parts → IsJoiner order n joiner committed
        → IsOffer order n (transfer_from order n (Some (plain_of donor.now.parts))) offer) }
    ensures err { OnErr result ((order : List Ordered) (n : ModelNode)
        → CanOffer order donor.now.parts → IsJoiner order n joiner committed
        → OfferWants (transfer_from order n (Some (plain_of donor.now.parts)))) }
{
    if !donor.is_connected() {
        return Ok(refused(Answer::NoDonor));
    }
    let taken = donor.taken();
    if taken < joiner.view {
        return Ok(refused(Answer::DonorBehind(joiner.view, taken)));
    }
    let same = joiner.id == donor.place().id;
    match plan(same, committed, donor.ring().range()) {
        Plan::Ist(from) => {
            let gift = given(donor.give(from, true))?;
            Ok(handed(Answer::Ist(from, taken), gift))
        }
        Plan::Sst => snapshot(donor, joiner.view),
    }
}

// A snapshot of what the donor has committed, where that is all that it certified and has the view
// in which the new member enters.
fn snapshot<W: Watcher>(donor: &NodeOf<W>, view: u64) -> Result<Offer, NoMemory>
    requires able { (order : List Ordered) × CanOffer order donor.now.parts }
    requires connected { is_connected donor.now.parts.at.phase ≡ true }
    ensures ok { IfOk result (λ offer. (order : List Ordered) (n : ModelNode)
        → CanOffer order donor.now.parts → view ≡ n.at.view
        → IsOffer order n (by_snapshot n (plain_of donor.now.parts)) offer) }
    ensures err { OnErr result ((order : List Ordered) (n : ModelNode)
        → CanOffer order donor.now.parts → view ≡ n.at.view
        → OfferWants (by_snapshot n (plain_of donor.now.parts))) }
{
    let certified = donor.certified();
    let committed = donor.committed();
    if certified != committed {
        return Ok(refused(Answer::DonorBusy(certified, committed)));
    }
    if committed < view {
        return Ok(refused(Answer::DonorBehind(view, committed)));
    }
    let gift = given(donor.give(0, false))?;
    Ok(handed(Answer::Sst(committed), gift))
}

fn refused(answer: Answer) -> Offer
    ensures { (result.answer ≡ answer) × (result.gift ≡ None) }
{
    Offer { answer, gift: None }
}

fn handed(answer: Answer, gift: Gift) -> Offer
    ensures { (result.answer ≡ answer) × (result.gift ≡ Some gift) }
{
    Offer {
        answer,
        gift: Some(gift),
    }
}

// What a donor gave that is not busy.
fn given(made: Result<Gift, GiveFault>) -> Result<Gift, NoMemory>
    requires { IfErr made (λ it. it ≡ fault.NoMemory) }
    ensures { IfOk result (λ gift. made ≡ Ok gift) }
{
    match made {
        Ok(gift) => Ok(gift),
        Err(GiveFault::NoMemory) => Err(NoMemory),
        Err(GiveFault::Busy(_, _)) => unreachable!(),
    }
}
