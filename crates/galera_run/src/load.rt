ghost use Rattle.std.specs.Prelude.{◌≡◌, ◌≤◌, ◌<◌, [], ◌++◌, length, Err, IfOk, IfErr, OnOk};
ghost use Rattle.script_text.specs.Load.{load_steps};
ghost use Rattle.script_text.specs.Steps.{IsRunnable};
ghost use Rattle.report_text.specs.Load.{counts_of};
ghost use Rattle.galera_run.specs.declared.fault.RunFault.TheVariants as stop;
ghost use Rattle.galera_run.specs.Feeding.{PrintStops, HasWriteCause};
ghost use Rattle.galera_run.specs.Load.{load_start, load_run, load_summary, nodes_sum, TellsLoad, IsWithin, IsStepped, IsDone};
ghost use Rattle.galera_run.specs.Replicated.{LoadReplicates};

use crate::fault::{Finished, RunFault};
use crate::print::print_out;
use crate::workload::{Unwatched, Workload};
use cluster_core::{ClusterOf, StepFault};
use group_order::MemGroup;
use order_event::Step;
use outside_io::Sink;
use report_text::{LoadCounts, put_counts, put_sum};
use script_text::LoadSteps;
use std::alloc::Global;
use wsrep_base::{ByteList, NoMemory, StateId};

// The nodes of the cluster, the bytes of its ring, and its id.
const NODES: u8 = 3;

const RING: u64 = 1_048_576;

const ID: [u8; 16] = [0, 0, 0, 0, 0, 0, 0, 0, 0, 0, 0, 0, 0, 0, 0, 161];

/// Runs the workload of so many transactions, which are drawn from the seed, on three nodes, and
/// prints its summary. Nothing is written before all of it was run.
pub fn run_load<K: Sink>(
    alloc: Global,
    seed: u64,
    count: u64,
    out: &mut K,
) -> Result<Finished, RunFault>
    requires { (1 ≤ count) × (count ≤ 30_000) }
    ensures ok { IfOk result (TellsLoad seed count (K.written out.old) (K.written out.new)) }
    ensures err { IfErr result
        (PrintStops (K.written out.old) (K.written out.new) (load_summary seed count)) }
    ensures sent { OnOk result (K.unsent out.new ≡ []) }
    ensures unsent { result ≡ Err stop.NoMemory → K.unsent out.new ≡ K.unsent out.old }
    ensures cause { HasWriteCause (K.faults out.old) (K.faults out.new) result }
    // The run whose summary is written is right.
    ensures right { LoadReplicates seed count }
{
    match summary(alloc, seed, count) {
        Ok((text, done)) => match print_out(text.as_slice(), out) {
            Ok(()) => Ok(done),
            Err(fault) => Err(fault),
        },
        Err(_) => Err(RunFault::NoMemory),
    }
}

// The summary, of a run of all steps.
fn summary(alloc: Global, seed: u64, count: u64) -> Result<(ByteList, Finished), NoMemory>
    requires { count ≤ 30_000 }
    ensures text { IfOk result (λ r. r.0 ≡ load_summary seed count) }
    ensures steps { IfOk result (λ r. r.1.steps ≡ length (load_steps seed count)) }
    ensures events { IfOk result (λ r. r.1.events ≡ length (load_run seed count).1.order) }
{
    let load = run_all(alloc, seed, count)?;
    let events = load.cluster.events();
    let mut text = ByteList::new(alloc);
    put_counts(&mut text, seed, count, &load.counts, events)?;
    put_sums(&mut text, &load.cluster)?;
    let steps = load.steps;
    Ok((text, Finished { steps, events }))
}

// Appends the line of each node.
fn put_sums(text: &mut ByteList, cluster: &Unwatched) -> Result<(), NoMemory>
    requires { length cluster.now.model.nodes ≡ 3 }
    ensures { OnOk result (text.new ≡ text.old ++ nodes_sum cluster.now.model 3) }
{
    'nodes: for before in 0..NODES {
        let end = cluster.end(before + 1)?;
        put_sum(text, before + 1, end.at, &end.rows)?;
    }
    Ok(())
}

// A run of all steps.
fn run_all(alloc: Global, seed: u64, count: u64) -> Result<Workload, NoMemory>
    requires { count ≤ 30_000 }
    ensures { IfOk result (λ load. IsDone (load_steps seed count) load) }
{
    let mut load = begin(alloc)?;
    let mut steps = LoadSteps::new(seed, count);
    'steps: while let Some(step) = steps.next() {
        run_next(&mut load, &step)?;
    }
    Ok(load)
}

// The workload before its first step.
fn begin(alloc: Global) -> Result<Workload, NoMemory>
    ensures model { IfOk result (λ load. load.cluster.model ≡ load_start) }
    ensures counts { IfOk result (λ load. load.counts ≡ counts_of []) }
    ensures steps { IfOk result (λ load. load.steps ≡ 0) }
    ensures within { IfOk result IsWithin }
{
    let group = MemGroup::new(alloc, u32::from(NODES))?;
    Ok(Workload {
        cluster: ClusterOf::new(
            alloc,
            group,
            StateId::of_bytes(ID),
            NODES,
            RING,
            Vec::new(alloc),
        )?,
        counts: LoadCounts::new(),
        steps: 0,
    })
}

// Runs the next step, and counts its answer.
fn run_next(load: &mut Workload, step: &Step) -> Result<(), NoMemory>
    requires within { IsWithin load.old }
    requires few { load.old.steps < 300_000 }
    requires step { IsRunnable 3 step.now }
    ensures step { OnOk result (IsStepped load.old step.now load.new) }
    ensures within { OnOk result (IsWithin load.new) }
{
    match load.cluster.step(step) {
        Ok(answer) => {
            load.counts.add(&answer);
            load.steps += 1;
            Ok(())
        }
        Err(StepFault::NoMemory) => Err(NoMemory),
        // The group in memory never fails: its count of faults is 0 for good.
        Err(StepFault::Group) => unreachable!(),
    }
}
