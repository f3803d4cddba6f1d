ghost use Rattle.std.specs.Prelude.{◌≡◌, [], length, IfOk, IfErr};
ghost use Rattle.galera_run.specs.Lines.{last_line};
ghost use Rattle.galera_run.specs.Reading.{nodes_end, run_told, told_at, run_ended};
ghost use Rattle.galera_run.specs.Feeding.{Stands, IsSound, IsCounted, PrintStops, HasWriteCause, told_by};
ghost use Rattle.galera_run.specs.Outcome.{TellsAll, EndStops};

use crate::fault::{Finished, RunFault};
use crate::place::{Opened, Place};
use crate::print::print_lines;
use crate::script::{Script, run_pending};
use outside_io::Sink;
use report_text::put_node;
use script_text::ScriptCause;
use std::alloc::Global;
use wsrep_base::{ByteList, NoMemory};
use wsrep_watch::Watcher;

/// Ends the run at the end of the input: the last line needs no newline.
pub(crate) fn finish<K: Sink, W: Watcher>(
    alloc: Global,
    script: &mut Script<W>,
    out: &mut K,
) -> Result<Finished, RunFault>
    requires { IsSound script.old }
    ensures ok { IfOk result
        (TellsAll (run_told (told_by last_line script.old [])) (K.written out.old)
        (K.written out.new)) }
    ensures err { IfErr result
        (EndStops (told_by last_line script.old []) (K.written out.old) (K.written out.new)) }
    ensures cause { HasWriteCause (K.faults out.old) (K.faults out.new) result }
{
    if script.pending.is_empty() {
        return end_at_place(alloc, &script.place, out);
    }
    if let Err(fault) = run_pending(alloc, script, out) {
        return Err(fault);
    }
    end_at_place(alloc, &script.place, out)
}

// Ends the run behind the last line.
fn end_at_place<K: Sink, W: Watcher>(
    alloc: Global,
    place: &Place<W>,
    out: &mut K,
) -> Result<Finished, RunFault>
    requires { Stands place.now }
    ensures ok { IfOk result
        (TellsAll (run_told (told_at place.now)) (K.written out.old) (K.written out.new)) }
    ensures err { IfErr result
        (EndStops (told_at place.now) (K.written out.old) (K.written out.new)) }
    ensures cause { HasWriteCause (K.faults out.old) (K.faults out.new) result }
{
    match &place.state {
        Some(opened) => print_end(alloc, place.steps, opened, out),
        None => Err(RunFault::Script {
            line: place.number,
            cause: ScriptCause::Grammar,
        }),
    }
}

// Prints each node's place and rows.
fn print_end<K: Sink, W: Watcher>(
    alloc: Global,
    steps: u64,
    opened: &Opened<W>,
    out: &mut K,
) -> Result<Finished, RunFault>
    requires { IsCounted steps opened.now }
    ensures ok { IfOk result
        (TellsAll (run_ended steps opened.now.cluster.model) (K.written out.old)
        (K.written out.new)) }
    ensures err { IfErr result
        (PrintStops (K.written out.old) (K.written out.new)
        (run_ended steps opened.now.cluster.model).text) }
    ensures cause { HasWriteCause (K.faults out.old) (K.faults out.new) result }
{
    match end_lines(alloc, opened) {
        Ok(text) => match print_lines(text.as_slice(), out) {
            Ok(()) => Ok(Finished {
                steps,
                events: opened.cluster.events(),
            }),
            Err(fault) => Err(fault),
        },
        Err(_) => Err(RunFault::NoMemory),
    }
}

// The lines of all nodes.
fn end_lines<W: Watcher>(alloc: Global, opened: &Opened<W>) -> Result<ByteList, NoMemory>
    requires { length opened.now.cluster.model.nodes ≡ opened.now.nodes }
    ensures { IfOk result (λ text. text ≡ nodes_end opened.now.cluster.model opened.now.nodes) }
{
    let mut text = ByteList::new(alloc);
    'nodes: for before in 0..opened.nodes {
        let end = opened.cluster.end(before + 1)?;
        put_node(&mut text, before + 1, end.at, &end.rows)?;
    }
    Ok(text)
}
