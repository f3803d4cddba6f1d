ghost use Rattle.std.specs.Prelude.{◌≡◌, ◌+◌, ◌<◌, [], ◌∷◌, length, OnOk, IfErr};
ghost use Rattle.galera_run.specs.Feeding.{Stands, IsSound, Runs, LineStops, Feeds, Stops, HasWriteCause, read_count};

use crate::fault::RunFault;
use crate::line::{LineFault, MOST_BYTES, take_line};
use crate::place::Place;
use crate::print::print_answer;
use outside_io::Sink;
use script_text::ScriptCause;
use std::alloc::Global;
use std::marker::Model;
use wsrep_base::ByteList;
use wsrep_watch::Watcher;

/// A schedule as it is read: where its lines stand, and the bytes of the line that has begun.
#[derive(Drop)]
pub struct Script<W: Watcher> {
    pub place: Place<W>,
    pub pending: ByteList,
}

impl<W: Watcher> Model for Script<W> {
    ghost use Rattle.galera_run.specs.Places.{Script};

    ghost Value = { Script };

    ghost view = { λ s. record { place = s.place; pending = s.pending } };
}

/// Runs the bytes that come next, each line as soon as it is whole.
pub(crate) fn feed<K: Sink, W: Watcher>(
    alloc: Global,
    script: &mut Script<W>,
    piece: &[u8],
    out: &mut K,
) -> Result<(), RunFault>
    requires { IsSound script.old }
    ensures ok { OnOk result
        (Feeds script.old script.new piece.now (K.written out.old) (K.written out.new)) }
    ensures sound { OnOk result (IsSound script.new) }
    ensures count { OnOk result (read_count script.new ≡ read_count script.old + length piece.now) }
    ensures err { IfErr result
        (Stops script.old piece.now (K.written out.old) (K.written out.new)) }
    ensures cause { HasWriteCause (K.faults out.old) (K.faults out.new) result }
{
    'bytes: for byte in piece {
        if let Err(fault) = take_byte(alloc, script, *byte, out) {
            return Err(fault);
        }
    }
    Ok(())
}

fn take_byte<K: Sink, W: Watcher>(
    alloc: Global,
    script: &mut Script<W>,
    byte: u8,
    out: &mut K,
) -> Result<(), RunFault>
    requires { IsSound script.old }
    ensures ok { OnOk result
        (Feeds script.old script.new (byte ∷ []) (K.written out.old) (K.written out.new)) }
    ensures sound { OnOk result (IsSound script.new) }
    ensures count { OnOk result (read_count script.new ≡ read_count script.old + 1) }
    ensures err { IfErr result
        (Stops script.old (byte ∷ []) (K.written out.old) (K.written out.new)) }
    ensures cause { HasWriteCause (K.faults out.old) (K.faults out.new) result }
{
    if script.place.before + script.pending.len() >= MOST_BYTES {
        let line = script.place.number;
        let cause = ScriptCause::Limit;
        return Err(RunFault::Script { line, cause });
    }
    match script.pending.push(byte) {
        Ok(()) if byte == b'\n' => run_pending(alloc, script, out),
        Ok(()) => Ok(()),
        Err(_) => Err(RunFault::NoMemory),
    }
}

/// Runs the line that has begun.
pub(crate) fn run_pending<K: Sink, W: Watcher>(
    alloc: Global,
    script: &mut Script<W>,
    out: &mut K,
) -> Result<(), RunFault>
    requires stands { Stands script.old.place }
    requires some { 0 < length script.old.pending }
    ensures ok { OnOk result
        (Runs script.old.place script.new.place script.old.pending (K.written out.old)
        (K.written out.new)) }
    ensures none { OnOk result (script.new.pending ≡ []) }
    ensures stands { OnOk result (Stands script.new.place) }
    ensures err { IfErr result
        (LineStops script.old.place script.old.pending (K.written out.old) (K.written out.new)) }
    ensures cause { HasWriteCause (K.faults out.old) (K.faults out.new) result }
{
    match run_line(alloc, &mut script.place, script.pending.as_slice(), out) {
        Ok(()) => {
            script.pending.clear();
            Ok(())
        }
        Err(fault) => Err(fault),
    }
}

fn run_line<K: Sink, W: Watcher>(
    alloc: Global,
    place: &mut Place<W>,
    line: &[u8],
    out: &mut K,
) -> Result<(), RunFault>
    requires stands { Stands place.old }
    requires some { 0 < length line.now }
    ensures ok { OnOk result
        (Runs place.old place.new line.now (K.written out.old) (K.written out.new)) }
    ensures stands { OnOk result (Stands place.new) }
    ensures err { IfErr result
        (LineStops place.old line.now (K.written out.old) (K.written out.new)) }
    ensures cause { HasWriteCause (K.faults out.old) (K.faults out.new) result }
{
    let number = place.number;
    match take_line(alloc, place, line) {
        Ok(Some(answer)) => print_answer(alloc, number, &answer, out),
        Ok(None) => Ok(()),
        Err(LineFault::Refused(cause)) => Err(RunFault::Script {
            line: number,
            cause,
        }),
        Err(LineFault::NoMemory) => Err(RunFault::NoMemory),
    }
}
