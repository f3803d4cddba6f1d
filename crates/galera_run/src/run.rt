ghost use Rattle.std.specs.Prelude.{◌≡◌, ◌≢◌, ◌<◌, [], true, false, length, IsTrue, IfSome, Err, OnOk, IfOk, IfErr};
ghost use Rattle.galera_run.specs.declared.fault.RunFault.TheVariants as stop;
ghost use Rattle.std.specs.Io.KnownBytes.{IsAtEnd, Keeps};
ghost use Rattle.galera_run.specs.Feeding.{IsSound, Reads, ReadStops, HasReadCause, HasWriteCause, read_count};
ghost use Rattle.galera_run.specs.Outcome.{RunTells, RunStops, SendsOut};
ghost use Rattle.galera_run.specs.Replicated.{TellsRight, BeginsRight};

use crate::fault::{Finished, RunFault};
use crate::finish::finish;
use crate::place::Place;
use crate::print::send_printed;
use crate::script::{Script, feed};
use outside_io::{Sink, Source};
use std::alloc::Global;
use wsrep_base::ByteList;
use wsrep_watch::Watcher;

// The length of the slice that each read is given.
const PIECE: usize = 4096;

/// Runs a schedule: prints what each step is answered, and at the end each node's place and rows.
/// Each line is run as soon as it is whole. It stops at the first line at fault, and where the
/// source or the sink fails.
///
/// Box i goes to node i, and hears what that node commits. Those beyond the last node are told that
/// they ended at 0, and dropped; where no node is made, all are dropped as they are. A node that
/// leaves tells its watcher the end, and drops it; at the end of the run the others are dropped
/// without that call.
pub fn run_steps<S: Source, K: Sink>(
    alloc: Global,
    input: &mut S,
    out: &mut K,
    watch: Vec<Box<dyn Watcher + Send>>,
) -> Result<Finished, RunFault>
    ensures ok { IfOk result (RunTells (S.left input.old) (K.written out.old) (K.written out.new)) }
    ensures end { OnOk result (IsAtEnd (S.left input.new)) }
    ensures err { IfErr result
        (RunStops (S.left input.old) (S.left input.new) (K.written out.old) (K.written out.new)) }
    ensures read { HasReadCause (S.faults input.old) (S.faults input.new) result }
    ensures write { HasWriteCause (K.faults out.old) (K.faults out.new) result }
    // Nothing is left behind that was gathered.
    ensures sent { result ≢ Err stop.Write → K.unsent out.new ≡ [] }
    // The run whose text was written is right, and so is that of the lines before a stop.
    ensures right { OnOk result (IfSome (S.left input.old)
        (λ bytes. TellsRight bytes (K.written out.old) (K.written out.new))) }
    ensures begins { IfSome (S.left input.old)
        (λ bytes. BeginsRight bytes (K.written out.old) (K.written out.new)) }
{
    let ran = run_lines(alloc, input, out, watch);
    send_behind(ran, out)
}

// Runs a schedule, and may leave what it printed to be sent out.
fn run_lines<S: Source, K: Sink, W: Watcher>(
    alloc: Global,
    input: &mut S,
    out: &mut K,
    watch: Vec<W>,
) -> Result<Finished, RunFault>
    ensures ok { IfOk result (RunTells (S.left input.old) (K.written out.old) (K.written out.new)) }
    ensures end { OnOk result (IsAtEnd (S.left input.new)) }
    ensures err { IfErr result
        (RunStops (S.left input.old) (S.left input.new) (K.written out.old) (K.written out.new)) }
    ensures read { HasReadCause (S.faults input.old) (S.faults input.new) result }
    ensures write { HasWriteCause (K.faults out.old) (K.faults out.new) result }
    ensures sent { result ≡ Err stop.Read → K.unsent out.new ≡ [] }
{
    let mut script = Script {
        place: Place {
            number: 1,
            before: 0,
            steps: 0,
            watch,
            state: None,
        },
        pending: ByteList::new(alloc),
    };
    match read_all(alloc, &mut script, input, out) {
        Ok(()) => finish(alloc, &mut script, out),
        Err(fault) => Err(fault),
    }
}

// Sends out what a run printed. Where its source failed nothing is left of that, and where its sink
// failed no more is tried.
fn send_behind<K: Sink>(ran: Result<Finished, RunFault>, out: &mut K) -> Result<Finished, RunFault>
    requires { ran ≡ Err stop.Read → K.unsent out.old ≡ [] }
    ensures kept { Keeps (K.written out.old) (K.written out.new) }
    ensures sent { SendsOut ran result (K.faults out.old) (K.faults out.new) }
    ensures unsent { result ≢ Err stop.Write → K.unsent out.new ≡ [] }
{
    match ran {
        Err(RunFault::Read) | Err(RunFault::Write) => ran,
        _ => match send_printed(out) {
            Ok(()) => ran,
            Err(fault) => Err(fault),
        },
    }
}

// Runs all whole lines of the source.
fn read_all<S: Source, K: Sink, W: Watcher>(
    alloc: Global,
    script: &mut Script<W>,
    input: &mut S,
    out: &mut K,
) -> Result<(), RunFault>
    requires { IsSound script.old }
    ensures ok { OnOk result
        (Reads (S.left input.old) (S.left input.new) script.old script.new (K.written out.old)
        (K.written out.new)) }
    ensures end { OnOk result (IsAtEnd (S.left input.new)) }
    ensures sound { OnOk result (IsSound script.new) }
    ensures err { IfErr result
        (ReadStops (S.left input.old) (S.left input.new) script.old (K.written out.old)
        (K.written out.new)) }
    ensures read { HasReadCause (S.faults input.old) (S.faults input.new) result }
    ensures write { HasWriteCause (K.faults out.old) (K.faults out.new) result }
    ensures sent { result ≡ Err stop.Read → K.unsent out.new ≡ [] }
{
    'reads: loop {
        match read_piece(alloc, script, input, out) {
            Ok(true) => {}
            Ok(false) => return Ok(()),
            Err(fault) => return Err(fault),
        }
    }
}

// Sends out what was printed, and runs the next piece of the source. False where there is none.
fn read_piece<S: Source, K: Sink, W: Watcher>(
    alloc: Global,
    script: &mut Script<W>,
    input: &mut S,
    out: &mut K,
) -> Result<bool, RunFault>
    requires { IsSound script.old }
    ensures ok { OnOk result
        (Reads (S.left input.old) (S.left input.new) script.old script.new (K.written out.old)
        (K.written out.new)) }
    ensures sound { OnOk result (IsSound script.new) }
    ensures more { IfOk result
        (λ more. (more ≡ true → read_count script.old < read_count script.new)
        × (more ≡ false → IsAtEnd (S.left input.new))) }
    ensures err { IfErr result
        (ReadStops (S.left input.old) (S.left input.new) script.old (K.written out.old)
        (K.written out.new)) }
    ensures read { HasReadCause (S.faults input.old) (S.faults input.new) result }
    ensures write { HasWriteCause (K.faults out.old) (K.faults out.new) result }
    ensures sent { result ≡ Err stop.Read → K.unsent out.new ≡ [] }
{
    if let Err(fault) = send_printed(out) {
        return Err(fault);
    }
    run_piece(alloc, script, input, out)
}

// Reads the next piece of the source and runs it. False where there is none. All that was printed
// is out by then: whoever waits for an answer before the next line has it.
fn run_piece<S: Source, K: Sink, W: Watcher>(
    alloc: Global,
    script: &mut Script<W>,
    input: &mut S,
    out: &mut K,
) -> Result<bool, RunFault>
    requires sound { IsSound script.old }
    requires sent { K.unsent out.old ≡ [] }
    ensures ok { OnOk result
        (Reads (S.left input.old) (S.left input.new) script.old script.new (K.written out.old)
        (K.written out.new)) }
    ensures sound { OnOk result (IsSound script.new) }
    ensures more { IfOk result
        (λ more. (more ≡ true → read_count script.old < read_count script.new)
        × (more ≡ false → IsAtEnd (S.left input.new))) }
    ensures err { IfErr result
        (ReadStops (S.left input.old) (S.left input.new) script.old (K.written out.old)
        (K.written out.new)) }
    ensures read { HasReadCause (S.faults input.old) (S.faults input.new) result }
    ensures write { HasWriteCause (K.faults out.old) (K.faults out.new) result }
    ensures sent { result ≡ Err stop.Read → K.unsent out.new ≡ [] }
{
    let mut piece = [0; PIECE];
    match input.read(&mut piece) {
        Ok(0) => Ok(false),
        Ok(count) => match feed(alloc, script, &piece[..count], out) {
            Ok(()) => Ok(true),
            Err(fault) => Err(fault),
        },
        Err(_) => Err(RunFault::Read),
    }
}
