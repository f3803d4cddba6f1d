ghost use Rattle.std.specs.Prelude.{◌≡◌, ◌≤◌, ◌<◌, min, length, take, Some};
ghost use Rattle.std.specs.Io.{ReadsAtMost};
ghost use Rattle.std.specs.Io.KnownBytes.{ReadConsumes};
ghost use Rattle.outside_io.specs.Outside.{HasCause};
ghost use Rattle.outside_io.specs.Memory.{read_answer, after_read};

use crate::calls::is_due;
use crate::{Failed, Source};
use std::marker::Model;
use wsrep_base::{ByteList, CallList};

/// A source in memory. It gives its bytes in pieces, and some of its calls fail.
#[derive(Drop)]
pub struct MemSource {
    bytes: ByteList,
    at: usize,
    most: usize,
    fails: CallList,
    calls: u64,
    faults: u64,
}

impl Model for MemSource {
    ghost use Rattle.std.specs.Prelude.{◌≤◌, length, drop};
    ghost use Rattle.outside_io.specs.Memory.{ModelSource};

    ghost Value = { ModelSource };

    ghost view = { λ s. record {
      left = drop s.at s.bytes;
      most = s.most;
      fails = s.fails;
      calls = s.calls;
      faults = s.faults;
    } };

    ghost invariant = { λ s. (s.at ≤ length s.bytes) × (1 ≤ s.most) };
}

impl MemSource {
    ghost use Rattle.outside_io.specs.Memory.{new_source};

    /// A source of these bytes, which gives at most `most` of them per read. The calls with the
    /// listed numbers, counted from 1, are to fail.
    pub fn new(bytes: ByteList, most: usize, fails: CallList) -> MemSource
        requires { 1 ≤ most }
        ensures { result ≡ new_source bytes most fails }
    {
        MemSource {
            bytes,
            at: 0,
            most,
            fails,
            calls: 0,
            faults: 0,
        }
    }
}

impl Source for MemSource {
    ghost left = { λ source. Some source.left };

    ghost faults = { λ source. source.faults };

    /// Fails exactly where its call is listed. Otherwise it gives the least of `most`, the slice's
    /// length and the number of bytes left.
    fn read(&mut self, into: &mut [u8]) -> Result<usize, Failed>
        requires { 0 < length into.old }
        ensures answer { result ≡ read_answer self.old (length into.old) }
        ensures state { self.new ≡ after_read self.old (length into.old) }
        ensures count { ReadsAtMost result into.new }
        ensures bytes { ReadConsumes (Some self.old.left) (Some self.new.left) result into.new }
        ensures cause { HasCause self.old.faults self.new.faults result }
    {
        let due = is_due(self.calls, &self.fails);
        self.calls = self.calls.saturating_add(1);
        if due {
            self.faults = self.faults.saturating_add(1);
            return Err(Failed);
        }
        let count = copy(&self.bytes.as_slice()[self.at..], self.most, into);
        self.at += count;
        Ok(count)
    }
}

// Copies the first bytes to the front of `to`, at most `most`, and returns how many.
fn copy(from: &[u8], most: usize, to: &mut [u8]) -> usize
    ensures count { result ≡ min most (min (length to.old) (length from.now)) }
    ensures copied { take result to.new ≡ take result from.now }
{
    let count = most.min(to.len().min(from.len()));
    to[..count].copy_from_slice(&from[..count]);
    count
}
