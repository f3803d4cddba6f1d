ghost use Rattle.std.specs.Prelude.{◌≡◌, [], IfOk};
ghost use Rattle.std.specs.Io.Buffered.{writer_buffer, writer_contents};
ghost use Rattle.std.specs.Io.KnownBytes.{Keeps};
ghost use Rattle.outside_io.specs.Outside.{HasCause};

use crate::{Failed, Sink, Source};
use std::alloc::Global;
use std::io::{BufWriter, Read, Write};
use wsrep_base::NoMemory;

/// A reader of std as a source. It counts its failures; the counter stands still at its end.
#[derive(Drop)]
pub struct StdSource<R: Read> {
    reader: R,
    faults: u64,
}

impl<R: Read> StdSource<R> {
    /// The source with no failure so far.
    pub fn new(reader: R) -> StdSource<R>
        ensures left { ⟦<StdSource<R> as Source>⟧.left result ≡ R.remaining reader }
        ensures faults { ⟦<StdSource<R> as Source>⟧.faults result ≡ 0 }
    {
        StdSource { reader, faults: 0 }
    }
}

impl<R: Read> Source for StdSource<R> {
    ghost left = { λ source. R.remaining source.reader };

    ghost faults = { λ source. source.faults };

    fn read(&mut self, into: &mut [u8]) -> Result<usize, Failed> {
        match self.reader.read(into) {
            Ok(count) => Ok(count),
            Err(_) => {
                self.faults = self.faults.saturating_add(1);
                Err(Failed)
            }
        }
    }
}

/// A writer of std as a sink. It gathers what is written and writes it in large pieces. It counts
/// its failures; the counter stands still at its end.
#[derive(Drop)]
pub struct StdSink<W: Write + Drop> {
    writer: BufWriter<W>,
    faults: u64,
}

impl<W: Write + Drop> StdSink<W> {
    /// The sink with nothing gathered and no failure so far.
    pub fn new(alloc: Global, writer: W) -> Result<StdSink<W>, NoMemory>
        ensures written { IfOk result (λ sink.
            ⟦<StdSink<W> as Sink>⟧.written sink ≡ W.contents writer) }
        ensures unsent { IfOk result (λ sink. ⟦<StdSink<W> as Sink>⟧.unsent sink ≡ []) }
        ensures faults { IfOk result (λ sink. ⟦<StdSink<W> as Sink>⟧.faults sink ≡ 0) }
    {
        match BufWriter::new(alloc, writer) {
            Ok(writer) => Ok(StdSink { writer, faults: 0 }),
            Err(_) => Err(NoMemory),
        }
    }
}

impl<W: Write + Drop> Sink for StdSink<W> {
    ghost written = { λ sink. writer_contents W.contents sink.writer };

    ghost unsent = { λ sink. writer_buffer sink.writer };

    ghost faults = { λ sink. sink.faults };

    /// A write that takes no byte is a failure too, and so is one of what was gathered before.
    fn write(&mut self, piece: &[u8]) -> Result<usize, Failed> {
        match self.writer.write(piece) {
            Ok(count) if count > 0 => Ok(count),
            _ => {
                self.faults = self.faults.saturating_add(1);
                Err(Failed)
            }
        }
    }

    fn send_out(&mut self) -> Result<(), Failed> {
        match self.writer.flush() {
            Ok(()) => Ok(()),
            Err(_) => {
                self.faults = self.faults.saturating_add(1);
                Err(Failed)
            }
        }
    }
}
