//! The fold over an order of events.

use cert_meaning::{FoldState, Whole};
use key_sets::{Kind, Parts};
use order_event::decode_event;
use row_model::{Op, RowId};
use std::alloc::Global;
use std::test::Fail;
use wsrep_base::{Judged, TrxId};

const TABLE: [u8; 16] = *b"acct\0\0\0\0\0\0\0\0\0\0\0\0";

const FIRST: Parts = Parts {
    table: TABLE,
    row: Some(*b"a1\0\0\0\0\0\0\0\0\0\0\0\0\0\0"),
};

const SECOND: Op = Op::Delete(RowId {
    table: TABLE,
    row: *b"a2\0\0\0\0\0\0\0\0\0\0\0\0\0\0",
});

// The view of member 2, and the deletes of acct.a1 and acct.a2, two fragments of its transaction 5,
// over 1.
const VIEW: &str = "02000000010000000100000002";

const FIRST_FRAGMENT: &str = "01000000020000003d01000000020000000000000001000000000000000500000000\
    010000000000000001000000010203046163637402613100000001030461636374026131";

const SECOND_FRAGMENT: &str = "01000000020000003d01000000020000000000000002000000000000000500000001\
    000000000000000001000000010203046163637402613200000001030461636374026132";

fn step(alloc: Global, state: &mut FoldState, event: &str) -> Result<Judged, Fail> {
    if state.number() > 1000 {
        return Err(Fail::from("too many events"));
    }
    let bytes = hex::decode(alloc, event)?;
    let event = decode_event(alloc, bytes.as_slice())?;
    Ok(state.step(&event)?)
}

fn after_fragments(alloc: Global) -> Result<FoldState, Fail> {
    let mut state = FoldState::empty(alloc)?;
    step(alloc, &mut state, VIEW)?;
    step(alloc, &mut state, FIRST_FRAGMENT)?;
    step(alloc, &mut state, SECOND_FRAGMENT)?;
    Ok(state)
}

fn whole_of(alloc: Global, begin: u64) -> Result<Option<Whole>, Fail> {
    let state = after_fragments(alloc)?;
    Ok(state.whole(TrxId { member: 2, begin })?)
}

#[test]
fn an_open_transaction_has_what_its_fragments_have(rt: HostRuntime) -> Result<(), Fail> {
    let whole = whole_of(rt.alloc(), 5)?.ok_or("open")?;
    assert_eq!(rt; whole.keys.kind_at(&FIRST), Some(Kind::Exclusive));
    assert_eq!(rt; whole.keys.len(), 2);
    assert_eq!(rt; whole.ops.get(1), Some(SECOND));
    Ok(())
}

#[test]
fn another_transaction_has_nothing(rt: HostRuntime) -> Result<(), Fail> {
    assert!(rt; whole_of(rt.alloc(), 6)?.is_none());
    Ok(())
}
