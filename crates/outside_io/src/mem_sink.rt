ghost use Rattle.std.specs.Prelude.{◌≡◌, ◌≤◌, ◌+◌, [], ◌++◌, length, Some, IfOk, ◌<◌, vec_len, vec_capacity, IsOk};
ghost use Rattle.std.specs.Io.KnownBytes.{Keeps, WriteAppends};
ghost use Rattle.outside_io.specs.Outside.{HasCause, WritesSome};
ghost use Rattle.outside_io.specs.Memory.{write_answer, after_write};

use crate::calls::is_due;
use crate::{Failed, Sink};
use std::marker::Model;
use wsrep_base::{CallList, NoMemory};

/// A sink in memory, with room taken at its making. Some of its calls fail.
#[derive(Drop)]
pub struct MemSink {
    bytes: Vec<u8>,
    room: usize,
    fails: CallList,
    calls: u64,
    faults: u64,
}

impl Model for MemSink {
    ghost use Rattle.std.specs.Prelude.{◌+◌, ◌≤◌, vec_len, vec_capacity};
    ghost use Rattle.outside_io.specs.Memory.{ModelSink};

    ghost Value = { ModelSink };

    ghost view = { λ s. record {
      written = s.bytes.items;
      room = s.room;
      fails = s.fails;
      calls = s.calls;
      faults = s.faults;
    } };

    ghost invariant = { λ s. vec_len s.bytes + s.room ≤ vec_capacity s.bytes };
}

impl MemSink {
    ghost use Rattle.outside_io.specs.Memory.{new_sink};

    /// A sink with room for so many bytes. The calls with the listed numbers, counted from 1, are
    /// to fail.
    pub fn new(room: usize, fails: CallList) -> Result<MemSink, NoMemory>
        ensures { IfOk result (λ sink. sink ≡ new_sink room fails) }
    {
        Ok(MemSink {
            bytes: Vec::with_capacity(fails.alloc(), room)?,
            room,
            fails,
            calls: 0,
            faults: 0,
        })
    }

    /// The bytes written so far.
    pub fn written(&self) -> &[u8]
        ensures { result.now ≡ self.now.written }
    {
        self.bytes.as_slice()
    }
}

impl Sink for MemSink {
    ghost written = { λ sink. Some sink.written };

    ghost unsent = { λ sink. [] };

    ghost faults = { λ sink. sink.faults };

    /// Fails exactly where its call is listed or less room than the piece is left. Otherwise it
    /// takes the whole piece.
    fn write(&mut self, piece: &[u8]) -> Result<usize, Failed>
        requires { 0 < length piece.now }
        ensures answer { result ≡ write_answer self.old piece.now }
        ensures state { self.new ≡ after_write self.old piece.now }
        ensures some { WritesSome result piece.now }
        ensures bytes { WriteAppends (Some self.old.written) (Some self.new.written)
            result piece.now }
        ensures cause { HasCause self.old.faults self.new.faults result }
    {
        let due = is_due(self.calls, &self.fails);
        self.calls = self.calls.saturating_add(1);
        if due || self.room < piece.len() {
            self.faults = self.faults.saturating_add(1);
            return Err(Failed);
        }
        put(&mut self.bytes, piece);
        self.room -= piece.len();
        Ok(piece.len())
    }

    /// It gathers nothing, so there is nothing to do, and no call is counted.
    fn send_out(&mut self) -> Result<(), Failed>
        ensures ok { IsOk result }
        ensures state { self.new ≡ self.old }
        ensures bytes { Keeps (Some self.old.written) (Some self.new.written) }
        ensures cause { HasCause self.old.faults self.new.faults result }
    {
        Ok(())
    }
}

// Appends bytes for which there is room.
fn put(bytes: &mut Vec<u8>, piece: &[u8])
    requires { vec_len bytes.old + length piece.now ≤ vec_capacity bytes.old }
    ensures items { bytes.new.items ≡ bytes.old.items ++ piece.now }
    ensures capacity { vec_capacity bytes.old ≤ vec_capacity bytes.new }
{
    match bytes.extend_from_slice(piece) {
        Ok(()) => {}
        Err(_) => unreachable!(),
    }
}
