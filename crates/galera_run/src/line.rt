ghost use Rattle.std.specs.Prelude.{◌≡◌, ◌+◌, ◌≤◌, ◌<◌, ◌^◌, length, nat_lt, Ok, Some, None, IfOk, OnOk, IfErr, IsTrue};
ghost use Rattle.wsrep_base.specs.declared.limits.TheConstants.{NUMBERS_END};
ghost use Rattle.order_event.specs.Fits.{step_fits};
ghost use Rattle.script_text.specs.Grammar.{first_of, line_of};
ghost use Rattle.script_text.specs.Steps.{IsStepOf};
ghost use Rattle.node_meaning.specs.Cluster.{will_order};
ghost use Rattle.galera_run.specs.declared.line.TheConstants.{MOST_EVENTS};
ghost use Rattle.galera_run.specs.Reading.{behind, opened_at, stepped_at, line_at};
ghost use Rattle.galera_run.specs.Feeding.{Stands, IsRoomFor, FailsAs, IsHeaderOf, IsOpenedBy, IsCounted};

use crate::place::{Opened, Place};
use cluster_core::{ClusterOf, StepFault};
use group_order::MemGroup;
use order_event::{Answer, Step};
use script_text::{Header, Line, ScriptCause, parse_first, parse_line};
use std::alloc::Global;
use std::mem;
use wsrep_base::NoMemory;
use wsrep_watch::Watcher;

/// The most bytes of an input.
pub const MOST_BYTES: usize = 33_554_432;

/// The most step lines of a schedule.
pub const MOST_STEPS: u64 = 200_000;

/// The most events that a schedule may order.
pub const MOST_EVENTS: u64 = 100_000;

/// Why a line was not run.
#[derive(Clone, Copy)]
pub enum LineFault {
    Refused(ScriptCause),
    NoMemory,
}

/// Runs the next line, which has the newline that ends it, and says what its step is answered.
pub(crate) fn take_line<W: Watcher>(
    alloc: Global,
    place: &mut Place<W>,
    line: &[u8],
) -> Result<Option<Answer>, LineFault>
    requires stands { Stands place.old }
    requires some { 0 < length line.now }
    ensures ok { IfOk result (λ answer. line_at place.old line.now ≡ Ok (answer, place.new)) }
    ensures stands { OnOk result (Stands place.new) }
    ensures err { IfErr result (FailsAs (line_at place.old line.now)) }
{
    if line.len() > MOST_BYTES - place.before {
        return Err(LineFault::Refused(ScriptCause::Limit));
    }
    match place.state.take() {
        None => open(alloc, place, line),
        Some(opened) => run_said(place, opened, line),
    }
}

// Up to the header, a line is passed over, or is the header, which begins the cluster.
#[tactic(auto, using(crate::proofs::LineLaws::header_of_line))]
fn open<W: Watcher>(
    alloc: Global,
    place: &mut Place<W>,
    line: &[u8],
) -> Result<Option<Answer>, LineFault>
    requires { IsRoomFor place.old line.now None }
    ensures ok { IfOk result
        (λ answer. opened_at place.old line.now (first_of line.now) ≡ Ok (answer, place.new)) }
    ensures stands { OnOk result (Stands place.new) }
    ensures err { IfErr result (FailsAs (opened_at place.old line.now (first_of line.now))) }
{
    let steps = place.steps;
    match parse_first(line) {
        Ok(Some(header)) => match begin(alloc, &header, &mut place.watch) {
            Ok(opened) => {
                pass(place, line, steps, Some(opened));
                Ok(None)
            }
            Err(_) => Err(LineFault::NoMemory),
        },
        Ok(None) => {
            pass(place, line, steps, None);
            Ok(None)
        }
        Err(cause) => Err(LineFault::Refused(cause)),
    }
}

// The cluster of a header, over a group in memory. It is given all the watchers.
fn begin<W: Watcher>(
    alloc: Global,
    header: &Header,
    watch: &mut Vec<W>,
) -> Result<Opened<W>, NoMemory>
    requires { IsHeaderOf header.now }
    ensures opened { IfOk result (IsOpenedBy header.now) }
    ensures counted { IfOk result (IsCounted 0) }
{
    let group = MemGroup::new(alloc, u32::from(header.nodes))?;
    let watch = mem::replace(watch, Vec::new(alloc));
    Ok(Opened {
        nodes: header.nodes,
        cluster: ClusterOf::new(alloc, group, header.id, header.nodes, header.gcache, watch)?,
    })
}

// A line behind the header.
#[tactic(auto, using(script_text::proofs::FitLemmas::line_fits, script_text::proofs::FitLemmas::line_step))]
fn run_said<W: Watcher>(
    place: &mut Place<W>,
    opened: Opened<W>,
    line: &[u8],
) -> Result<Option<Answer>, LineFault>
    requires { IsRoomFor place.old line.now (Some opened) }
    ensures ok { IfOk result (λ answer.
        stepped_at place.old line.now opened (line_of opened.nodes line.now)
        ≡ Ok (answer, place.new)) }
    ensures stands { OnOk result (Stands place.new) }
    ensures err { IfErr result
        (FailsAs (stepped_at place.old line.now opened (line_of opened.nodes line.now))) }
{
    match parse_line(line, opened.nodes) {
        Ok(Line::Step(step)) => run_step(place, opened, line, &step),
        Ok(Line::Blank) => {
            let steps = place.steps;
            pass(place, line, steps, Some(opened));
            Ok(None)
        }
        Err(cause) => Err(LineFault::Refused(cause)),
    }
}

// A step, unless it would pass a limit.
fn run_step<W: Watcher>(
    place: &mut Place<W>,
    mut opened: Opened<W>,
    line: &[u8],
    step: &Step,
) -> Result<Option<Answer>, LineFault>
    requires room { IsRoomFor place.old line.now (Some opened) }
    requires names { IsTrue (step_fits step.now) }
    requires step { IsStepOf opened.nodes step.now }
    ensures ok { IfOk result (λ answer.
        stepped_at place.old line.now opened (Ok (Line.Step step.now)) ≡ Ok (answer, place.new)) }
    ensures stands { OnOk result (Stands place.new) }
    ensures err { IfErr result
        (FailsAs (stepped_at place.old line.now opened (Ok (Line.Step step.now)))) }
{
    let steps = place.steps;
    if steps >= MOST_STEPS || passes_events(&opened.cluster, step) {
        return Err(LineFault::Refused(ScriptCause::Limit));
    }
    match opened.cluster.step(step) {
        Ok(answer) => {
            pass(place, line, steps + 1, Some(opened));
            Ok(Some(answer))
        }
        Err(StepFault::NoMemory) => Err(LineFault::NoMemory),
        // The group in memory never fails: its count of faults is 0 for good.
        Err(StepFault::Group) => unreachable!(),
    }
}

// Whether the events that the step is going to order pass the limit.
fn passes_events<W: Watcher>(cluster: &ClusterOf<MemGroup, W>, step: &Step) -> bool
    requires node { (1 ≤ step.now.node) × (step.now.node ≤ length cluster.now.model.nodes) }
    requires events { length cluster.now.model.order ≤ MOST_EVENTS }
    ensures { result
        ≡ nat_lt MOST_EVENTS
        (length cluster.now.model.order + will_order cluster.now.model step.now) }
{
    cluster.will_order(step) > MOST_EVENTS - cluster.events()
}

// Goes behind the line.
fn pass<W: Watcher>(place: &mut Place<W>, line: &[u8], steps: u64, state: Option<Opened<W>>)
    requires numbered { place.old.number < NUMBERS_END }
    requires room { place.old.before + length line.now < 2 ^ 63 }
    ensures { place.new ≡ behind place.old line.now steps state }
{
    place.number += 1;
    place.before += line.len();
    place.steps = steps;
    place.state = state;
}
