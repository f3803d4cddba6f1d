//! Turns of a gate, and loads of its number.
ghost use Rattle.std.specs.Prelude.{◌≡◌, ◌+◌, ◌^◌, ◌<◌, IfOk};

use crate::tally::Tally;
use node_gate::{Gate, GateSeat};
use std::alloc::Global;
use std::sync::Wait;
use std::thread::{Threads, join};
use wsrep_base::NoMemory;

fn open(alloc: Global) -> Result<(Gate<Tally>, GateSeat<Tally>), NoMemory>
    ensures { IfOk result (λ r. (r.1.gate ≡ r.0) × (r.1.number ≡ 0) × (r.1.splits ≡ 0)) }
{
    match Gate::new(alloc, Tally::new(alloc)) {
        Ok(made) => Ok(made),
        Err((_, failed)) => Err(failed),
    }
}

// One turn of the seat with this number.
fn turn<T: Wait>(
    rt: &T,
    gate: &Gate<Tally>,
    seat: &mut GateSeat<Tally>,
    number: u64,
) -> Result<(), NoMemory>
    requires serves { seat.old.gate ≡ gate.now }
    requires number { seat.old.number ≡ number }
    ensures { (seat.new.gate ≡ seat.old.gate) × (seat.new.number ≡ seat.old.number) }
{
    gate.with_turn(rt, seat, |tally| tally.add(number))
}

// So many turns of one seat.
fn one<T: Wait>(
    rt: &T,
    gate: &Gate<Tally>,
    mut seat: GateSeat<Tally>,
    number: u64,
    rounds: u32,
) -> Result<(), NoMemory>
    requires serves { seat.gate ≡ gate.now }
    requires number { seat.number ≡ number }
{
    for _ in 0..rounds {
        turn(rt, gate, &mut seat, number)?;
    }
    Ok(())
}

// So many turns of each of two seats, the second split off after the first, in two threads.
fn two<R: Threads + Wait + Sync>(
    rt: &R,
    gate: &Gate<Tally>,
    first: GateSeat<Tally>,
    second: GateSeat<Tally>,
    number: u64,
    rounds: u32,
) -> Result<(), NoMemory>
    requires serves { (first.gate ≡ gate.now) × (second.gate ≡ gate.now) }
    requires numbers { (first.number ≡ number) × (second.number ≡ number + 1) }
    requires small { number < 9 }
{
    let (left, right) = join(
        rt,
        move || one(rt, gate, first, number, rounds),
        move || one(rt, gate, second, number + 1, rounds),
    );
    left.and(right)
}

// So many turns of each of the first four seats that were split off, in four threads.
fn four<R: Threads + Wait + Sync>(
    rt: &R,
    gate: &Gate<Tally>,
    a: GateSeat<Tally>,
    b: GateSeat<Tally>,
    c: GateSeat<Tally>,
    d: GateSeat<Tally>,
    rounds: u32,
) -> Result<(), NoMemory>
    requires serves { (a.gate ≡ gate.now) × (b.gate ≡ gate.now) }
    requires serves_too { (c.gate ≡ gate.now) × (d.gate ≡ gate.now) }
    requires numbers { (a.number ≡ 1) × (b.number ≡ 2) }
    requires numbers_too { (c.number ≡ 3) × (d.number ≡ 4) }
{
    let left = move || -> Result<(), NoMemory>
        requires { (a.gate ≡ gate.now) × (b.gate ≡ gate.now) × (a.number ≡ 1) × (b.number ≡ 2) }
    { two(rt, gate, a, b, 1, rounds) };
    let right = move || -> Result<(), NoMemory>
        requires { (c.gate ≡ gate.now) × (d.gate ≡ gate.now) × (c.number ≡ 3) × (d.number ≡ 4) }
    { two(rt, gate, c, d, 3, rounds) };
    let (made, made_too) = join(rt, left, right);
    made.and(made_too)
}

fn by_one<T: Wait>(rt: &T, alloc: Global, rounds: u32) -> Result<u64, NoMemory> {
    let (gate, mut seat) = open(alloc)?;
    let other = gate.split(&mut seat);
    one(rt, &gate, other, 1, rounds)?;
    Ok(gate.last_committed(&mut seat))
}

fn by_two<R: Threads + Wait + Sync>(rt: &R, alloc: Global, rounds: u32) -> Result<u64, NoMemory> {
    let (gate, mut seat) = open(alloc)?;
    let (a, b) = (gate.split(&mut seat), gate.split(&mut seat));
    two(rt, &gate, a, b, 1, rounds)?;
    Ok(gate.last_committed(&mut seat))
}

fn by_four<R: Threads + Wait + Sync>(rt: &R, alloc: Global, rounds: u32) -> Result<u64, NoMemory> {
    let (gate, mut seat) = open(alloc)?;
    let (a, b) = (gate.split(&mut seat), gate.split(&mut seat));
    let (c, d) = (gate.split(&mut seat), gate.split(&mut seat));
    four(rt, &gate, a, b, c, d, rounds)?;
    Ok(gate.last_committed(&mut seat))
}

/// How many turns were made, once each of one, two or four threads has made its own.
pub fn turns<R: Threads + Wait + Sync>(
    rt: &R,
    alloc: Global,
    threads: u8,
    rounds: u32,
) -> Result<u64, NoMemory> {
    match threads {
        1 => by_one(rt, alloc, rounds),
        2 => by_two(rt, alloc, rounds),
        _ => by_four(rt, alloc, rounds),
    }
}

/// The last of so many loads of the number after one turn.
pub fn loads<T: Wait>(rt: &T, alloc: Global, rounds: u32) -> Result<u64, NoMemory> {
    let (gate, mut seat) = open(alloc)?;
    turn(rt, &gate, &mut seat, 0)?;
    let mut found = 0;
    for _ in 0..rounds {
        found = gate.last_committed(&mut seat);
    }
    Ok(found)
}
