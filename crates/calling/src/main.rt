//! A caller of the library: two nodes over a group in memory. The first one commits a row and
//! leaves, and a watcher of the caller's own hears what it commits. Each step is printed with what
//! it is answered, and at the end what the second node shows.
#![tactic(auto)]

mod nodes;
mod teller;

use anyhow::{Context, Result};
use nodes::{Nodes, open, step};
use order_event::{Act, Answer};
use row_model::{Call, Row, RowId};
use std::sync::Arc;
use std::sync::atomic::{AtomicU64, Ordering};
use teller::Teller;

// Account a of table acct. Names are padded with zero bytes.
const ACCOUNT: RowId = RowId {
    table: [97, 99, 99, 116, 0, 0, 0, 0, 0, 0, 0, 0, 0, 0, 0, 0],
    row: [97, 0, 0, 0, 0, 0, 0, 0, 0, 0, 0, 0, 0, 0, 0, 0],
};

fn main(rt: HostRuntime) -> Result<()> {
    let heard = Arc::new(rt.alloc(), AtomicU64::new(0))?;
    let mut watch = Vec::new(rt.alloc());
    watch.push(Teller {
        heard: Arc::try_clone(&heard)?,
    })?;
    let mut cluster = open(rt.alloc(), watch)?;
    run(rt, &mut cluster)?;
    println!(rt; "node 1 committed {} events", heard.load(Ordering::SeqCst))?;
    let end = cluster.end(2)?;
    for item in end.rows.as_slice() {
        println!(rt; "node 2 at {}: {:?}", end.at, item.row.values())?;
    }
    Ok(())
}

ghost use Rattle.std.specs.Prelude.{◌≡◌, length};
ghost use Rattle.node_laws.specs.Given.{given};

// Session 1 of node 1 inserts a row and commits it; then that node leaves, and the other one goes
// on.
fn run(rt: HostRuntime, cluster: &mut Nodes) -> Result<()>
    requires nodes { length cluster.old.model.nodes ≡ 2 }
    requires counts { given cluster.old.model ≡ 1 }
    ensures nodes { length cluster.new.model.nodes ≡ 2 }
{
    let row = Row::of(&[100]).context("a row has 1 to 8 values")?;
    say(rt, 1, &step(cluster, 1, Act::Drain)?)?;
    say(rt, 2, &step(cluster, 2, Act::Drain)?)?;
    say(rt, 1, &step(cluster, 1, Act::Client(1, Call::Begin(0)))?)?;
    say(
        rt,
        1,
        &step(cluster, 1, Act::Client(1, Call::Insert(ACCOUNT, row)))?,
    )?;
    say(rt, 1, &step(cluster, 1, Act::Client(1, Call::Commit))?)?;
    say(rt, 1, &step(cluster, 1, Act::Drain)?)?;
    say(rt, 1, &step(cluster, 1, Act::Client(1, Call::Poll))?)?;
    say(rt, 1, &step(cluster, 1, Act::Leave)?)?;
    say(rt, 2, &step(cluster, 2, Act::Drain)?)
}

fn say(rt: HostRuntime, node: u8, answer: &Answer) -> Result<()> {
    println!(rt; "node {}: {:?}", node, answer)?;
    Ok(())
}
