ghost use Rattle.std.specs.Prelude.{◌≡◌, ℕ, List, Option};
ghost use Rattle.wsrep_watch.specs.declared.note.Note.{Note};
ghost use Rattle.wsrep_watch.specs.Heard.{Gains, EndsAt};

use crate::Note;

/// Hears what a node commits, number by number. It is handed to a node in a box, which the node
/// gives back or drops.
pub trait Watcher: Drop {
    /// The notes heard, the oldest first, where the watcher tells them.
    ghost notes: { Self → Option (List Note) };

    /// The number at which it ended, if it did, where the watcher tells that.
    ghost end: { Self → Option (Option ℕ) };

    /// The node committed a number. A watcher that tells its notes after this call told them
    /// before, and has this one at their end.
    fn heard(&mut self, note: Note)
        ensures { Gains (notes self.old) note (notes self.new) };

    /// The node is left, or its run is over: it has committed all up to `at`. The notes stay; a
    /// watcher that tells its end after this call ended there.
    fn ended(&mut self, at: u64)
        ensures notes { notes self.new ≡ notes self.old }
        ensures end { EndsAt at (end self.new) };
}

impl Watcher for Box<dyn Watcher + Send> {
    ghost notes = { λ it. (Watcher-box it).notes it.value };

    ghost end = { λ it. (Watcher-box it).end it.value };

    fn heard(&mut self, note: Note) {
        (**self).heard(note);
    }

    fn ended(&mut self, at: u64) {
        (**self).ended(at);
    }
}
