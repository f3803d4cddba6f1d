ghost use Rattle.std.specs.Prelude.{◌≡◌, ◌≤◌, ◌+◌, ◌||◌, length, is_none, option_map, IsTrue};
ghost use Rattle.node_core.specs.Watching.{noted};
ghost use Rattle.finite_map.specs.FiniteMap.{get};
ghost use Rattle.apply_unit.specs.Results.{put_all};
ghost use Rattle.node_core.specs.Advancing.{AreFree, TakesUnit, IsCommitted, AfterCommitter};

use crate::answers::Advanced;
use crate::node::NodeParts;
use node_parts::{committer_of, is_local};
use row_locks::Holder;
use row_model::{Reply, Row, RowId};
use undo_rows::{Overlay, Rows};
use wsrep_base::Judged;
use wsrep_watch::Note;

impl NodeParts {
    ghost use Rattle.std.specs.Prelude.{List};
    ghost use Rattle.order_event.specs.declared.event.Event.{Event};
    ghost use Rattle.certification.specs.Certifies.{commit_with};
    ghost use Rattle.node_parts.specs.Units.{done_of, rows_of};
    ghost use Rattle.node_meaning.specs.Steps.{advance_step, is_finished, committer_of as committer, is_local as local};
    ghost use Rattle.node_core.specs.Advancing.{results_of};
    ghost use Rattle.node_core.specs.Watching.{AdvancedTo, note_due};
    ghost use Rattle.node_core.specs.Answers.{advanced_answer};
    ghost use Rattle.node_core.specs.Stands.{IsStanding, Stands, Does};

    /// Commits the next number that was certified, if it is ready, and gives the note of it.
    pub(crate) fn advance(&mut self) -> (Advanced, Option<Note>)
        requires stands { IsStanding self.old }
        ensures does { Does (λ order n. advance_step order n) self.old self.new
            (advanced_answer result.0) }
        ensures to { AdvancedTo result.0 self.old.at.committed self.new.at.committed }
        ensures note { (order : List Event) → Stands order self.old
            → result.1 ≡ note_due order result.0 }
    {
        if self.at.committed == self.at.certified {
            return (Advanced::Nothing, None);
        }
        let number = self.at.committed + 1;
        if !self.is_ready(number) {
            return (Advanced::NotReady(number), None);
        }
        self.take_unit(number);
        self.end_committer(number);
        let judged = self.certification.commit(number);
        self.at.committed = number;
        (Advanced::At(number), note_of(number, judged))
    }

    // Whether the number is no passed commit, or its unit is finished, or it is a live local one.
    fn is_ready(&self, number: u64) -> bool
        ensures { result
            ≡ (is_none (commit_with number self.now.certification)
            || is_finished (get self.now.units.units number) || local self.now.live number) }
    {
        self.certification.commit_at(number).is_none()
            || self.units.is_finished(number)
            || is_local(&self.live, number)
    }

    // The unit with this number ends; where it is finished, its rows become the committed ones.
    fn take_unit(&mut self, number: u64)
        requires room { self.old.units.room ≤ self.old.rows.spare }
        requires fits { IsTrue (is_finished (get self.old.units.units number))
            → length (results_of (done_of (get self.old.units.work number)))
            ≤ rows_of (get self.old.units.work number) }
        requires free { IsTrue (is_finished (get self.old.units.units number))
            → AreFree self.old.rows.changes
            (results_of (done_of (get self.old.units.work number))) }
        ensures { TakesUnit number self.old self.new }
    {
        self.locks.release(Holder::Unit(number));
        match self.units.take(number) {
            Some(done) => put_all(&mut self.rows, done.results()),
            None => {}
        }
    }

    // The transaction that commits at the number ends, if there is one.
    fn end_committer(&mut self, number: u64)
        ensures { AfterCommitter (committer self.old.live number) number self.old self.new }
    {
        match committer_of(&self.live, number) {
            Some(session) => self.commit_own(number, session),
            None => {}
        }
    }

    // The session's transaction is committed, and it is told so.
    fn commit_own(&mut self, number: u64, session: u8)
        requires low { 1 ≤ session }
        requires high { session ≤ 32 }
        ensures { IsCommitted session number self.old self.new }
    {
        let _ended = self.live.take(session);
        self.rows.keep(session);
        self.locks.release(Holder::Session(session));
        self.waiting.put(session, Reply::Committed(number));
    }
}

// The note of a number, where it is known what became of it.
fn note_of(number: u64, judged: Option<Judged>) -> Option<Note>
    ensures { result ≡ option_map (noted number) judged }
{
    match judged {
        Some(judged) => Some(Note { number, judged }),
        None => None,
    }
}

// The results of a unit become committed rows.
fn put_all(rows: &mut Overlay, results: &[(RowId, Option<Row>)])
    requires room { length results.now ≤ rows.old.spare }
    requires free { AreFree rows.old.changes results.now }
    ensures committed { rows.new.committed ≡ put_all results.now rows.old.committed }
    ensures changes { rows.new.changes ≡ rows.old.changes }
    ensures spare { rows.old.spare ≤ rows.new.spare + length results.now }
{
    for (id, row) in results {
        rows.put(id, *row);
    }
}
