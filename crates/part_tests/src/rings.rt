//! The ring of the newest events, the plan of a transfer, and a state as its parts.

use bytes::Bytes;
use cert_meaning::FoldState;
use gcache_ring::{CopyFault, Ring};
use order_event::Event;
use state_transfer::{Plan, plan};
use std::test::Fail;

// Reports, whose entries are 37 each, of which two fit.
#[test]
fn a_ring_holds_the_newest_events_that_fit(rt: HostRuntime) -> Result<(), Fail> {
    let mut ring = Ring::new(rt.alloc(), 110, 4)?;
    assert_eq!(rt; ring.range(), None);
    let report = Event::Report {
        member: 2,
        number: 4,
    };
    ring.push(&report)?;
    ring.push(&report)?;
    ring.push(&report)?;
    assert_eq!(rt; ring.range(), Some((6, 7)));
    let copied = ring.copy(7).ok().ok_or("held")?;
    assert_eq!(rt; copied.len(), 1);
    assert_eq!(rt; ring.copy(5).err(), Some(CopyFault::NotHeld(Some(6))));
    Ok(())
}

// An entry of 111.
#[test]
fn an_event_larger_than_the_ring_empties_it(rt: HostRuntime) -> Result<(), Fail> {
    let mut ring = Ring::new(rt.alloc(), 110, 4)?;
    let body = Bytes::from_static(&[0; 78]);
    ring.push(&Event::Write { member: 2, body })?;
    assert_eq!(rt; ring.range(), None);
    assert_eq!(rt; ring.copy(5).err(), Some(CopyFault::NotHeld(None)));
    Ok(())
}

#[test]
fn events_serve_where_the_ring_has_the_next_one(rt: HostRuntime) {
    assert_eq!(rt; plan(true, 4, Some((5, 9))), Plan::Ist(5));
    assert_eq!(rt; plan(true, 3, Some((5, 9))), Plan::Sst);
    assert_eq!(rt; plan(false, 4, Some((5, 9))), Plan::Sst);
    assert_eq!(rt; plan(true, 4, None), Plan::Sst);
}

#[test]
fn a_state_is_made_of_its_parts(rt: HostRuntime) -> Result<(), Fail> {
    let state = FoldState::empty(rt.alloc())?;
    let again = FoldState::of(rt.alloc(), state.parts()?)?;
    assert_eq!(rt; again.number(), 0);
    Ok(())
}
