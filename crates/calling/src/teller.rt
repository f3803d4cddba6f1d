//! A watcher of the caller's own: it keeps the last number that it heard of.
ghost use Rattle.std.specs.Prelude.{None};

use std::sync::Arc;
use std::sync::atomic::{AtomicU64, Ordering};
use wsrep_watch::{Note, Watcher};

/// Keeps the last number that its node committed, in a place that outlives it.
#[derive(Drop)]
pub(crate) struct Teller {
    pub(crate) heard: Arc<AtomicU64>,
}

impl Watcher for Teller {
    ghost notes = { λ it. None };

    ghost end = { λ it. None };

    fn heard(&mut self, note: Note) {
        self.heard.store(note.number, Ordering::SeqCst);
    }

    fn ended(&mut self, _at: u64) {}
}
