ghost use Rattle.std.specs.Prelude.{◌≡◌, ◌≤◌, length};
ghost use Rattle.wsrep_watch.specs.Heard.{Gains, EndsAt, all_notes};

use crate::{Note, Watcher};
use arrayvec::ArrayVec;
use std::marker::Model;

/// How many notes a `ListWatcher` keeps.
pub const MOST_NOTES: usize = 64;

/// A watcher that keeps the first 64 notes and counts those after them. It takes no memory.
#[derive(Drop)]
pub struct ListWatcher {
    first: ArrayVec<Note, MOST_NOTES>,
    rest: u64,
    end: Option<u64>,
}

impl Model for ListWatcher {
    ghost use Rattle.std.specs.Prelude.{◌≤◌, length};
    ghost use Rattle.wsrep_watch.specs.Heard.{ModelList};

    ghost Value = { ModelList };

    ghost view = { λ w. record { first = w.first.items; rest = w.rest; end = w.end } };

    ghost invariant = { λ w. length w.first.items ≤ 64 };
}

impl ListWatcher {
    ghost use Rattle.wsrep_watch.specs.Heard.{new_list};

    /// A watcher that has heard nothing.
    pub fn new() -> ListWatcher
        ensures { result ≡ new_list }
    {
        ListWatcher {
            first: ArrayVec::new(),
            rest: 0,
            end: None,
        }
    }

    /// The first 64 notes, the oldest first.
    pub fn first(&self) -> &[Note]
        ensures { result.now ≡ self.now.first }
    {
        self.first.as_slice()
    }

    /// How many notes came after the first 64.
    pub fn rest(&self) -> u64
        ensures { result ≡ self.now.rest }
    {
        self.rest
    }

    /// The number that its node had committed when it was told the end.
    pub fn end(&self) -> Option<u64>
        ensures { result ≡ self.now.end }
    {
        self.end
    }
}

impl Watcher for ListWatcher {
    ghost use Rattle.std.specs.Prelude.{Some};
    ghost use Rattle.wsrep_watch.specs.Heard.{with_note};

    ghost notes = { all_notes };

    ghost end = { λ list. Some list.end };

    fn heard(&mut self, note: Note)
        ensures state { self.new ≡ with_note self.old note }
        ensures gains { Gains (all_notes self.old) note (all_notes self.new) }
    {
        if self.first.try_push(note).is_err() {
            self.rest = self.rest.saturating_add(1);
        }
    }

    fn ended(&mut self, at: u64)
        ensures state { self.new ≡ record self.old { end = Some at } }
        ensures notes { all_notes self.new ≡ all_notes self.old }
        ensures end { EndsAt at (Some self.new.end) }
    {
        self.end = Some(at);
    }
}
