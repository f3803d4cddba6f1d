//! What a transaction sends before its end: fragments and the rollback, as bytes.

ghost use Rattle.std.specs.Prelude.{◌≡◌, IfOk, IsTrue};
ghost use Rattle.client_trx.specs.Live.{CanSendFragment, is_uncommitted};
ghost use Rattle.client_trx.specs.declared.status.Added.TheVariants as added;
ghost use Rattle.client_trx.specs.declared.status.Status.TheVariants as status;

use client_trx::{Added, Trx};
use key_sets::{Kind, Parts};
use row_model::{Op, RowId};
use std::alloc::Global;
use std::test::Fail;
use write_set::encode;
use wsrep_base::{NoMemory, TrxId};

const ID: TrxId = TrxId {
    member: 2,
    begin: 5,
};

const PARTS: Parts = Parts {
    table: *b"acct\0\0\0\0\0\0\0\0\0\0\0\0",
    row: Some(*b"a1\0\0\0\0\0\0\0\0\0\0\0\0\0\0"),
};

const DELETE: Op = Op::Delete(RowId {
    table: *b"acct\0\0\0\0\0\0\0\0\0\0\0\0",
    row: *b"a1\0\0\0\0\0\0\0\0\0\0\0\0\0\0",
});

fn delete_row(trx: &mut Trx) -> Result<Added, NoMemory>
    requires { trx.old.status ≡ status.Running }
    ensures { IfOk result (λ told. told ≡ added.Fragment → CanSendFragment trx.new) }
{
    trx.add(&PARTS, Kind::Exclusive, Some(DELETE))
}

// The delete of acct.a1, first fragment of transaction 5 of member 2, with serial 9, over 3.
const FRAGMENT: &str = "01000000020000000000000009000000000000000500000000010000000000000003\
    000000010203046163637402613100000001030461636374026131";

fn fragment_text(alloc: Global, trx: &mut Trx) -> Result<String, Fail>
    requires { CanSendFragment trx.old }
{
    let set = trx.make_fragment(9, 3)?;
    Ok(hex::encode(alloc, encode(alloc, &set)?)?)
}

// With one change a fragment, the first change fills one.
#[test]
fn a_fragment_has_what_was_gathered(rt: HostRuntime) -> Result<(), Fail> {
    let mut trx = Trx::begin(rt.alloc(), ID, 1)?;
    match delete_row(&mut trx)? {
        Added::Fragment => {
            assert_eq!(rt; fragment_text(rt.alloc(), &mut trx)?.as_str(), FRAGMENT);
            assert_eq!(rt; trx.sent(), 1);
            Ok(())
        }
        Added::Done | Added::TooLarge => Err(Fail::from("no fragment is due")),
    }
}

// A rollback of transaction 5 of member 2, with serial 9, over 3.
const ROLLBACK: &str = "01000000020000000000000009000000000000000500000000040000000000000003\
    0000000000000000";

fn rollback_text(alloc: Global, trx: &Trx) -> Result<String, Fail>
    requires { IsTrue (is_uncommitted trx.now.status) }
{
    let set = trx.make_rollback(9, 3)?;
    Ok(hex::encode(alloc, encode(alloc, &set)?)?)
}

fn is_rollback_due(trx: &Trx) -> Result<bool, NoMemory> {
    Ok(trx.rollback_due(9, 3)?.is_some())
}

#[test]
fn a_rollback_has_neither_key_nor_change(rt: HostRuntime) -> Result<(), Fail> {
    let trx = Trx::begin(rt.alloc(), ID, 1)?;
    assert_eq!(rt; rollback_text(rt.alloc(), &trx)?.as_str(), ROLLBACK);
    assert!(rt; !is_rollback_due(&trx)?);
    Ok(())
}
