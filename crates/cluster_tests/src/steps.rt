//! Steps of two nodes over a group, one call of which fails. A table is a text of rows
//! `step : answer`.
ghost use Rattle.std.specs.Prelude.{◌≡◌, ◌≤◌, ◌+◌, length, IsTrue};
ghost use Rattle.order_event.specs.Fits.{step_fits};
ghost use Rattle.node_laws.specs.Given.{given};
ghost use Rattle.script_text.specs.Steps.{IsStepOf};

use crate::group::FailingGroup;
use crate::ids::state_id;
use cluster_core::{ClusterOf, StepFault};
use group_order::MemGroup;
use order_event::{Answer, Step};
use report_text::put_answer;
use script_text::{Line, parse_line};
use std::alloc::Global;
use std::process::Abort;
use std::str::from_utf8;
use std::test::Fail;
use wsrep_base::ByteList;
use wsrep_watch::{ListWatcher, Watcher};

/// Two nodes, and how many steps were done.
#[derive(Drop)]
pub(crate) struct Run<W: Watcher> {
    cluster: ClusterOf<FailingGroup, W>,
    done: u32,
    ghost own: { (length cluster.model.nodes ≡ 2) × (given cluster.model ≤ done + 1) },
}

fn begin<W: Watcher>(alloc: Global, failing: u64, watch: Vec<W>) -> Result<Run<W>, Fail> {
    let id = state_id().ok_or("no id")?;
    let group = FailingGroup::new(MemGroup::new(alloc, 2)?, failing);
    let cluster = ClusterOf::new(alloc, group, id, 2, 0, watch)?;
    Ok(Run { cluster, done: 0 })
}

#[tactic(auto, using(crate::proofs::SaidSteps::session_of_step))]
fn take_step<W: Watcher>(
    run: Run<W>,
    step: &Step,
) -> Result<(Run<W>, Result<Answer, StepFault>), Fail>
    requires names { IsTrue (step_fits step.now) }
    requires step { IsStepOf 2 step.now }
{
    let Run { mut cluster, done } = run;
    if done > 1000 || cluster.events() > 1000 || cluster.will_order(step) > 1000 {
        return Err(Fail::from("too many steps"));
    }
    let found = cluster.step(step);
    let done = done + 1;
    Ok((Run { cluster, done }, found))
}

fn text_of(alloc: Global, found: Result<Answer, StepFault>) -> Result<String, Fail> {
    match found {
        Ok(answer) => {
            let mut out = ByteList::new(alloc);
            put_answer(&mut out, &answer)?;
            Ok(format!(in alloc; "{}", from_utf8(out.as_slice())?)?)
        }
        Err(fault) => Ok(format!(in alloc; "{fault}")?),
    }
}

#[tactic(auto, using(crate::proofs::SaidSteps::has_names, crate::proofs::SaidSteps::is_of))]
fn take_row<W: Watcher>(
    rt: &impl Abort,
    alloc: Global,
    run: Run<W>,
    row: &str,
) -> Result<Run<W>, Fail> {
    let (said, answer) = row.split_once(" : ").ok_or("a row has no answer")?;
    match parse_line(said.as_bytes(), 2) {
        Ok(Line::Step(step)) => {
            let (run, found) = take_step(run, &step)?;
            assert_eq!(rt; text_of(alloc, found)?.as_str(), answer, "{row}");
            Ok(run)
        }
        _ => Err(Fail::from("a row has no step")),
    }
}

/// The nodes behind the rows, where this call of the group fails.
pub(crate) fn run_rows<W: Watcher>(
    rt: &impl Abort,
    alloc: Global,
    failing: u64,
    watch: Vec<W>,
    table: &str,
) -> Result<Run<W>, Fail> {
    let mut run = begin(alloc, failing, watch)?;
    for row in table.lines() {
        run = take_row(rt, alloc, run, row)?;
    }
    Ok(run)
}

// The rows, where this call of the group fails and nobody watches.
fn check_rows(rt: &impl Abort, alloc: Global, failing: u64, table: &str) -> Result<(), Fail> {
    run_rows::<ListWatcher>(rt, alloc, failing, Vec::new(alloc), table)?;
    Ok(())
}

// The second call orders the message.
const ORDER: &str = "\
1 drain : AT 1
1.1 begin : OK
1.1 insert acct a 100 : OK
1.1 commit : PENDING
1 order : the group failed
1 order : ORDERED 2
1 order : NOTHING
1 drain : AT 2
1.1 poll : COMMITTED 2";

#[test]
fn a_message_that_was_not_ordered_is_ordered_later(rt: HostRuntime) -> Result<(), Fail> {
    check_rows(&rt, rt.alloc(), 2, ORDER)
}

// The first call gives the view.
const FIRST_DRAIN: &str = "\
1 drain : the group failed
1 certify : NOTHING
1 drain : AT 1";

#[test]
fn a_drain_that_took_nothing_is_ended_by_the_next(rt: HostRuntime) -> Result<(), Fail> {
    check_rows(&rt, rt.alloc(), 1, FIRST_DRAIN)
}

// The second call orders the message, and the third one gives its event.
const DRAIN: &str = "\
1 drain : AT 1
1.1 begin : OK
1.1 insert acct a 100 : OK
1.1 commit : PENDING
1 drain : the group failed
1 order : NOTHING
1.1 poll : PENDING
1 drain : AT 2
1.1 poll : COMMITTED 2
1.1 read acct a : ROW 100";

#[test]
fn a_drain_that_only_ordered_is_ended_by_the_next(rt: HostRuntime) -> Result<(), Fail> {
    check_rows(&rt, rt.alloc(), 3, DRAIN)
}

// The second call orders the view.
const LEAVE: &str = "\
1 drain : AT 1
1 leave : the group failed
1 order : NOTHING
1.1 begin : OK
1 leave : LEFT 2
1.1 poll : DISCONNECTED
1 leave : DISCONNECTED";

#[test]
fn a_leave_that_failed_changed_nothing(rt: HostRuntime) -> Result<(), Fail> {
    check_rows(&rt, rt.alloc(), 2, LEAVE)
}
