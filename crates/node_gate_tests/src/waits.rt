//! A caller that waits for the turns of another seat, and never longer than a stated limit.
ghost use Rattle.std.specs.Prelude.{◌≡◌};

use crate::tally::Tally;
use crate::turns::{note_thrice, open};
use node_gate::{Gate, GateSeat};
use std::alloc::Global;
use std::sync::Wait;
use std::thread;
use std::thread::{Threads, join};
use wsrep_base::NoMemory;

/// How often a caller that waits looks at the number at most.
const LOOKS: u32 = 1_000_000;

// Whether this number is published at one of so many looks; between two of them others may run.
fn await_number(gate: &Gate<Tally>, mut seat: GateSeat<Tally>, number: u64) -> bool
    requires serves { seat.gate ≡ gate.now }
{
    for _ in 0..LOOKS {
        if gate.last_committed(&mut seat) == number {
            return true;
        }
        thread::yield_now();
    }
    false
}

/// Whether one thread sees the three turns of another within the limit.
pub(crate) fn seen_in_time<R: Threads + Wait + Sync>(
    rt: &R,
    alloc: Global,
) -> Result<bool, NoMemory> {
    let (gate, mut first) = open(alloc, 7)?;
    let second = gate.split(&mut first);
    let shared = &gate;
    let ((_, made), seen) = join(
        rt,
        move || note_thrice(rt, shared, first, 0),
        move || await_number(shared, second, 3),
    );
    made?;
    Ok(seen)
}
