//! One job for each seat, which takes the seat by value and gives it back.
ghost use Rattle.std.specs.Prelude.{◌≡◌, ◌+◌, ◌^◌, ◌<◌, [], length};

use crate::tally::Tally;
use crate::turns::{note_thrice, open};
use node_gate::{Counted, GateSeat};
use std::alloc::Global;
use std::sync::Wait;
use std::thread;
use std::thread::Threads;
use wsrep_base::NoMemory;

/// A seat and its number.
#[derive(Drop)]
struct Job {
    seat: GateSeat<Tally>,
    number: u64,
    ghost own: { seat.number ≡ number },
}

fn job_of(seat: GateSeat<Tally>, number: u64) -> Job
    requires { seat.number ≡ number }
    ensures { result.seat ≡ seat }
{
    Job { seat, number }
}

/// Two jobs make three turns each; how many entries there are.
pub(crate) fn two_jobs<R: Threads + Wait + Sync>(rt: &R, alloc: Global) -> Result<u64, NoMemory> {
    let (gate, mut first) = open(alloc, 7)?;
    let mut jobs = Vec::new(alloc);
    jobs.push(job_of(gate.split(&mut first), 1))?;
    jobs.push(job_of(gate.split(&mut first), 2))?;
    let shared = &gate;
    let work = |one: Job| -> (GateSeat<Tally>, Result<(), NoMemory>)
        requires { one.seat.gate ≡ shared.now }
        ensures { result.0.gate ≡ shared.entry.now }
    {
        let Job { seat, number } = one;
        note_thrice(rt, shared, seat, number)
    };
    let mut done = thread::map_vec(rt, jobs, &work)?;
    let (last, made) = done.pop().unwrap();
    let (other, made_too) = done.pop().unwrap();
    gate.meet(&mut first, last);
    gate.meet(&mut first, other);
    made.and(made_too)?;
    Ok(gate.close(first).steps())
}
