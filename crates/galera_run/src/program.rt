ghost use Rattle.std.specs.Prelude.{◌≡◌, ◌≢◌, ◌<◌, ◌⊎◌, [], map, string_bytes, Some, IfOk, IsTrue};
ghost use Rattle.std.specs.Io.KnownBytes.{Appends, Keeps};
ghost use Rattle.galera_run.specs.Writing.{AppendsFront};
ghost use Rattle.galera_run.specs.Words.{IsSteps, is_load, load_asked, HasCount};
ghost use Rattle.galera_run.specs.Program.{refusal_text, cause_text, HasCauses, EndsAs, IsNoCommand, EndsUsage, TellsAsked, CutsAsked, TellsEnd, TellsLines, TellsRefused, TellsUnread, CutsRun, LeavesNone};
ghost use Rattle.galera_run.specs.Replicated.{WritesRight, AskedReplicates, StepsEndWhole, LoadEndsWhole};

use crate::fault::RunFault;
use crate::load::run_load;
use crate::output::write_out;
use crate::run::run_steps;
use crate::words::{Asked, is_steps, load_asked};
use itoa::Buffer;
use outside_io::{Sink, Source};
use script_text::ScriptCause;
use std::alloc::Global;
use wsrep_base::{ByteList, NoMemory};
use wsrep_watch::Watcher;

/// Does the command that the words behind the program's name are, and gives the exit status.
/// `steps` runs the schedule that the source gives. `load --seed N --count N` makes a schedule of
/// so many transactions, runs it and prints a summary; it reads nothing. The boxes watch the nodes
/// of a schedule, as `run_steps` says; for all other words they are dropped as they are.
///
/// 0: all was read and the whole text was written. 1: the words are no command. 2: a line is
/// outside the grammar or passes a limit. 3: the source failed. 4: the sink failed. 6: want of
/// memory.
pub fn galera_steps<S: Source, K: Sink>(
    alloc: Global,
    words: &[String],
    input: &mut S,
    out: &mut K,
    watch: Vec<Box<dyn Watcher + Send>>,
) -> u8
    // Which count of faults rose, and that there is no other status.
    ensures cause { HasCauses result (S.faults input.old) (S.faults input.new)
        (K.faults out.old) (K.faults out.new) }
    ensures finished { result ≡ 0 → (IsSteps (map string_bytes words.now)
        × TellsEnd (S.left input.old) (S.left input.new) (K.written out.old) (K.written out.new))
        ⊎ TellsAsked (load_asked (map string_bytes words.now))
        (K.written out.old) (K.written out.new) }
    // The words are no command: both directions. Only `steps` reads.
    ensures usage { (result ≡ 1 → IsNoCommand (map string_bytes words.now))
        × (IsNoCommand (map string_bytes words.now) →
        EndsUsage result (K.written out.old) (K.written out.new))
        × ((¬ IsSteps (map string_bytes words.now)) → input.new ≡ input.old) }
    ensures script { result ≡ 2 → IsSteps (map string_bytes words.now)
        × TellsRefused (S.left input.old) (K.written out.old) (K.written out.new) }
    ensures read { result ≡ 3 → IsSteps (map string_bytes words.now)
        × TellsUnread (S.left input.old) (S.left input.new)
        (K.written out.old) (K.written out.new) }
    // What went out is a front of the text. The source's count rose where it ends with `READ`.
    ensures cut { result ≡ 4 → (IsSteps (map string_bytes words.now)
        → CutsRun (S.left input.old) (S.left input.new) (S.faults input.old) (S.faults input.new)
        (K.written out.old) (K.written out.new))
        × CutsAsked (load_asked (map string_bytes words.now))
        (K.written out.old) (K.written out.new) }
    // What went out is the text of whole lines, and nothing where the words begin with `load`.
    ensures memory { result ≡ 6 → (IsSteps (map string_bytes words.now)
        × TellsLines (S.left input.old) (K.written out.old) (K.written out.new))
        ⊎ (IsTrue (is_load (map string_bytes words.now))
        × Keeps (K.written out.old) (K.written out.new)) }
    // Except where the sink failed, all that was gathered is out.
    ensures sent { result ≢ 4 → LeavesNone result (K.unsent out.old) (K.unsent out.new) }
    // The run whose text went out is right, and so is that of a workload.
    ensures right { (IsSteps (map string_bytes words.now)
        → WritesRight (result ≡ 0) (S.left input.old) (K.written out.old) (K.written out.new))
        × AskedReplicates (load_asked (map string_bytes words.now)) }
    // Where no count of faults rose, an input within the grammar and the limits ends with its whole
    // text or for want of memory, and so does a workload.
    ensures whole { (IsSteps (map string_bytes words.now)
        → StepsEndWhole result (S.left input.old) (K.written out.old) (K.written out.new)
        (S.faults input.old) (S.faults input.new) (K.faults out.old) (K.faults out.new))
        × LoadEndsWhole result (load_asked (map string_bytes words.now)) (K.written out.old)
        (K.written out.new) (K.faults out.old) (K.faults out.new) }
{
    if is_steps(words) {
        return do_steps(alloc, input, out, watch);
    }
    match load_asked(alloc, words) {
        Ok(Some(asked)) => do_load(alloc, asked, out),
        Ok(None) => end_with(out, b"USAGE\n", 1),
        Err(_) => 6,
    }
}

// Runs the workload, and prints its summary.
fn do_load<K: Sink>(alloc: Global, asked: Asked, out: &mut K) -> u8
    requires { HasCount (Some asked) }
    ensures cause { EndsAs 0 result (K.faults out.old) (K.faults out.new)
        ⊎ ((result ≡ 6) × (K.faults out.new ≡ K.faults out.old)) }
    ensures finished { result ≡ 0
        → TellsAsked (Some asked) (K.written out.old) (K.written out.new) }
    ensures cut { result ≡ 4 → CutsAsked (Some asked) (K.written out.old) (K.written out.new) }
    ensures memory { result ≡ 6 → Keeps (K.written out.old) (K.written out.new) }
    ensures sent { result ≢ 4 → LeavesNone result (K.unsent out.old) (K.unsent out.new) }
{
    match run_load(alloc, asked.seed, asked.count, out) {
        Ok(_) => 0,
        Err(fault) => match fault {
            RunFault::Write => 4,
            RunFault::NoMemory => 6,
            // It has no input.
            RunFault::Script { .. } | RunFault::Read => unreachable!(),
        },
    }
}

// Runs the schedule, and writes the last line where it stops.
fn do_steps<S: Source, K: Sink>(
    alloc: Global,
    input: &mut S,
    out: &mut K,
    watch: Vec<Box<dyn Watcher + Send>>,
) -> u8
    ensures cause { HasCauses result (S.faults input.old) (S.faults input.new)
        (K.faults out.old) (K.faults out.new) }
    ensures finished { result ≡ 0 → TellsEnd (S.left input.old) (S.left input.new)
        (K.written out.old) (K.written out.new) }
    ensures no_usage { result ≢ 1 }
    ensures script { result ≡ 2 →
        TellsRefused (S.left input.old) (K.written out.old) (K.written out.new) }
    ensures read { result ≡ 3 → TellsUnread (S.left input.old) (S.left input.new)
        (K.written out.old) (K.written out.new) }
    ensures cut { result ≡ 4 → CutsRun (S.left input.old) (S.left input.new)
        (S.faults input.old) (S.faults input.new) (K.written out.old) (K.written out.new) }
    ensures memory { result ≡ 6 →
        TellsLines (S.left input.old) (K.written out.old) (K.written out.new) }
    ensures sent { result ≢ 4 → K.unsent out.new ≡ [] }
{
    match run_steps(alloc, input, out, watch) {
        Ok(_) => 0,
        Err(RunFault::Script { line, cause }) => end_refused(alloc, line, cause, out),
        Err(RunFault::Read) => end_with(out, b"READ\n", 3),
        Err(RunFault::Write) => 4,
        Err(RunFault::NoMemory) => 6,
    }
}

// Writes that this line is refused.
fn end_refused<K: Sink>(alloc: Global, line: u64, cause: ScriptCause, out: &mut K) -> u8
    ensures cause { EndsAs 2 result (K.faults out.old) (K.faults out.new)
        ⊎ ((result ≡ 6) × (K.faults out.new ≡ K.faults out.old)) }
    ensures written { result ≡ 2 →
        Appends (K.written out.old) (K.written out.new) (refusal_text line cause) }
    ensures cut { result ≡ 4 →
        AppendsFront (K.written out.old) (K.written out.new) (refusal_text line cause) }
    ensures memory { result ≡ 6 → Keeps (K.written out.old) (K.written out.new) }
    ensures sent { result ≢ 4 → LeavesNone result (K.unsent out.old) (K.unsent out.new) }
{
    match refusal_line(alloc, line, cause) {
        Ok(text) => end_with(out, text.as_slice(), 2),
        Err(_) => 6,
    }
}

fn refusal_line(alloc: Global, line: u64, cause: ScriptCause) -> Result<ByteList, NoMemory>
    ensures { IfOk result (λ text. text ≡ refusal_text line cause) }
{
    let mut text = ByteList::new(alloc);
    let mut buffer = Buffer::new();
    text.extend(b"SCRIPT ".as_slice())?;
    text.extend(buffer.format(line).as_bytes())?;
    text.push(b' ')?;
    text.extend(cause_word(cause))?;
    text.push(b'\n')?;
    Ok(text)
}

fn cause_word(cause: ScriptCause) -> &'static [u8]
    ensures { result.now ≡ cause_text cause }
{
    match cause {
        ScriptCause::Grammar => b"grammar",
        ScriptCause::Limit => b"limit",
    }
}

// Writes the last line, and sends it out. The status is the one given, or 4 where the sink fails.
fn end_with<K: Sink>(out: &mut K, text: &[u8], status: u8) -> u8
    requires { status < 4 }
    ensures cause { EndsAs status result (K.faults out.old) (K.faults out.new) }
    ensures written { result ≡ status → Appends (K.written out.old) (K.written out.new) text.now }
    ensures cut { result ≡ 4 → AppendsFront (K.written out.old) (K.written out.new) text.now }
    ensures sent { result ≡ status → K.unsent out.new ≡ [] }
{
    match write_out(out, text) {
        Ok(()) => status,
        Err(_) => 4,
    }
}
