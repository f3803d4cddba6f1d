ghost use Rattle.std.specs.Prelude.{◌≡◌, [], IfOk, OnOk, IfErr};
ghost use Rattle.std.specs.Io.KnownBytes.{Appends, Keeps};
ghost use Rattle.report_text.specs.Texts.{line_text};
ghost use Rattle.galera_run.specs.Feeding.{PrintStops, HasWriteCause};
ghost use Rattle.galera_run.specs.declared.fault.RunFault.TheVariants as stop;

use crate::fault::RunFault;
use crate::output::{write_lines, write_piece};
use itoa::Buffer;
use order_event::Answer;
use outside_io::Sink;
use report_text::put_answer;
use std::alloc::Global;
use wsrep_base::{ByteList, NoMemory};

// Most lines have fewer bytes.
const ROOM: usize = 64;

/// Prints what the step on the line with this number was answered.
pub(crate) fn print_answer<K: Sink>(
    alloc: Global,
    number: u64,
    answer: &Answer,
    out: &mut K,
) -> Result<(), RunFault>
    ensures ok { OnOk result
        (Appends (K.written out.old) (K.written out.new) (line_text number answer.now)) }
    ensures err { IfErr result
        (PrintStops (K.written out.old) (K.written out.new) (line_text number answer.now)) }
    ensures cause { HasWriteCause (K.faults out.old) (K.faults out.new) result }
{
    match answer_line(alloc, number, answer) {
        Ok(text) => print_piece(text.as_slice(), out),
        Err(_) => Err(RunFault::NoMemory),
    }
}

fn print_piece<K: Sink>(text: &[u8], out: &mut K) -> Result<(), RunFault>
    ensures ok { OnOk result (Appends (K.written out.old) (K.written out.new) text.now) }
    ensures err { IfErr result (PrintStops (K.written out.old) (K.written out.new) text.now) }
    ensures cause { HasWriteCause (K.faults out.old) (K.faults out.new) result }
{
    match write_piece(out, text) {
        Ok(()) => Ok(()),
        Err(_) => Err(RunFault::Write),
    }
}

/// Prints lines, each as one piece.
pub(crate) fn print_lines<K: Sink>(text: &[u8], out: &mut K) -> Result<(), RunFault>
    ensures ok { OnOk result (Appends (K.written out.old) (K.written out.new) text.now) }
    ensures err { IfErr result (PrintStops (K.written out.old) (K.written out.new) text.now) }
    ensures fault { IfErr result (λ fault. fault ≡ stop.Write) }
    ensures cause { HasWriteCause (K.faults out.old) (K.faults out.new) result }
{
    match write_lines(out, text) {
        Ok(()) => Ok(()),
        Err(_) => Err(RunFault::Write),
    }
}

/// Prints lines, and sends them out.
pub(crate) fn print_out<K: Sink>(text: &[u8], out: &mut K) -> Result<(), RunFault>
    ensures ok { OnOk result (Appends (K.written out.old) (K.written out.new) text.now) }
    ensures sent { OnOk result (K.unsent out.new ≡ []) }
    ensures err { IfErr result (PrintStops (K.written out.old) (K.written out.new) text.now) }
    ensures fault { IfErr result (λ fault. fault ≡ stop.Write) }
    ensures cause { HasWriteCause (K.faults out.old) (K.faults out.new) result }
{
    match print_lines(text, out) {
        Ok(()) => send_printed(out),
        Err(fault) => Err(fault),
    }
}

/// Sends out what was printed.
pub(crate) fn send_printed<K: Sink>(out: &mut K) -> Result<(), RunFault>
    ensures kept { Keeps (K.written out.old) (K.written out.new) }
    ensures sent { OnOk result (K.unsent out.new ≡ []) }
    ensures err { IfErr result (λ fault. fault ≡ stop.Write) }
    ensures cause { HasWriteCause (K.faults out.old) (K.faults out.new) result }
{
    match out.send_out() {
        Ok(()) => Ok(()),
        Err(_) => Err(RunFault::Write),
    }
}

// The line's number, a space, the answer and a newline.
#[tactic(auto, unfolding(report_text::specs::Texts::line_text))]
fn answer_line(alloc: Global, number: u64, answer: &Answer) -> Result<ByteList, NoMemory>
    ensures { IfOk result (λ text. text ≡ line_text number answer.now) }
{
    let mut text = ByteList::from(Vec::with_capacity(alloc, ROOM)?);
    let mut buffer = Buffer::new();
    text.extend(buffer.format(number).as_bytes())?;
    text.push(b' ')?;
    put_answer(&mut text, answer)?;
    text.push(b'\n')?;
    Ok(text)
}
