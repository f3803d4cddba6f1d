ghost use Rattle.std.specs.Prelude.{◌≡◌, ◌==◌, ◌<◌, ◌≤◌, [], length, position, OnOk, OnErr, IfSome};
ghost use Rattle.std.specs.Io.KnownBytes.{Appends};
ghost use Rattle.outside_io.specs.Outside.{HasCause};
ghost use Rattle.galera_run.specs.Writing.{AppendsFront, first_line_len};

use outside_io::{Failed, Sink};

/// Writes the whole piece: what a write leaves over is written again.
pub(crate) fn write_piece<K: Sink>(out: &mut K, piece: &[u8]) -> Result<(), Failed>
    ensures ok { OnOk result (Appends (K.written out.old) (K.written out.new) piece.now) }
    ensures err { OnErr result (AppendsFront (K.written out.old) (K.written out.new) piece.now) }
    ensures cause { HasCause (K.faults out.old) (K.faults out.new) result }
{
    let mut rest = piece;
    'writes: while !rest.is_empty() {
        let count = out.write(rest)?;
        rest = &rest[count..];
    }
    Ok(())
}

/// Writes the whole piece, and sends out what was gathered.
pub(crate) fn write_out<K: Sink>(out: &mut K, piece: &[u8]) -> Result<(), Failed>
    ensures ok { OnOk result (Appends (K.written out.old) (K.written out.new) piece.now) }
    ensures sent { OnOk result (K.unsent out.new ≡ []) }
    ensures err { OnErr result (AppendsFront (K.written out.old) (K.written out.new) piece.now) }
    ensures cause { HasCause (K.faults out.old) (K.faults out.new) result }
{
    write_piece(out, piece)?;
    out.send_out()
}

/// Writes the lines of the text, each as one piece.
pub(crate) fn write_lines<K: Sink>(out: &mut K, text: &[u8]) -> Result<(), Failed>
    ensures ok { OnOk result (Appends (K.written out.old) (K.written out.new) text.now) }
    ensures err { OnErr result (AppendsFront (K.written out.old) (K.written out.new) text.now) }
    ensures cause { HasCause (K.faults out.old) (K.faults out.new) result }
{
    let mut rest = text;
    'lines: while !rest.is_empty() {
        let len = first_line_len(rest);
        write_piece(out, &rest[..len])?;
        rest = &rest[len..];
    }
    Ok(())
}

// The length of the first line, with its newline.
fn first_line_len(text: &[u8]) -> usize
    requires { 0 < length text.now }
    ensures line { result ≡ first_line_len text.now }
    ensures some { 0 < result }
    ensures within { result ≤ length text.now }
{
    match newline_at(text) {
        Some(at) => at + 1,
        None => text.len(),
    }
}

// Where the first newline stands.
fn newline_at(text: &[u8]) -> Option<usize>
    ensures first { result ≡ position (λ b. b == 10) text.now }
    ensures within { IfSome result (λ at. at < length text.now) }
{
    text.iter().position(|b| *b == b'\n')
}
