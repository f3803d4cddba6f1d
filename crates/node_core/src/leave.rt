ghost use Rattle.std.specs.Prelude.{◌≡◌, ◌≤◌, false};
ghost use Rattle.std.specs.List.{list_any};
ghost use Rattle.finite_map.specs.FiniteMap.{get};

use crate::node::NodeParts;
use client_trx::Status;
use node_meaning::Phase;
use row_model::Reply;

impl NodeParts {
    ghost use Rattle.node_meaning.specs.Node.{is_left};
    ghost use Rattle.node_meaning.specs.Leaving.{is_commit_of, left_node, sessions_left, where_untaken};
    ghost use Rattle.node_parts.specs.Queue.{AreOfSets, messages_of};
    ghost use Rattle.node_core.specs.Leaving.{told_of, session_left};
    ghost use Rattle.node_core.specs.Stands.{IsStanding, Does, Moves, quietly};

    /// The node leaves its group: its transactions end, but for those whose commit is taken, and
    /// what it sent and did not take is lost to it.
    pub(crate) fn leave(&mut self)
        requires stands { IsStanding self.old }
        requires left { is_left self.old.at.phase ≡ false }
        ensures { Does (quietly left_node) self.old self.new tt }
    {
        self.end_sessions();
        self.queue.clear();
        self.at.phase = Phase::Left;
    }

    // The transactions end, but for those whose commit is taken.
    fn end_sessions(&mut self)
        requires sets { AreOfSets self.old.queue }
        ensures { Moves sessions_left self.old self.new }
    {
        for session in 1..self.live.session_end() {
            self.end_at_leave(session);
        }
    }

    // The session's transaction ends, unless its commit is taken.
    fn end_at_leave(&mut self, session: u8)
        requires sets { AreOfSets self.old.queue }
        requires session { (1 ≤ session) × (session ≤ 32) }
        ensures { Moves (λ n. session_left (messages_of self.old.queue) n session)
            self.old self.new }
    {
        if let Some(reply) = self.told_at_leave(session) {
            self.end(session);
            self.waiting.put(session, reply);
        }
    }

    // What the session is told of its transaction; None where it has none, or one that stays live.
    fn told_at_leave(&self, session: u8) -> Option<Reply>
        requires { AreOfSets self.now.queue }
        ensures { result ≡ told_of (messages_of self.now.queue) (get self.now.live session) }
    {
        let Some(trx) = self.live.get(session) else {
            return None;
        };
        match trx.status() {
            Status::Running | Status::FragmentSent => Some(Reply::Disconnected),
            Status::CommitSent | Status::KilledSent => self.where_untaken(trx.begin_number()),
            Status::Certified(_) | Status::Replaying(_) => None,
        }
    }

    // What is told of a transaction whose commit was sent; None where that is taken.
    fn where_untaken(&self, begin: u64) -> Option<Reply>
        requires { AreOfSets self.now.queue }
        ensures { result
            ≡ where_untaken (list_any (is_commit_of begin) (messages_of self.now.queue)) }
    {
        if self.queue.has_commit_of(begin) {
            Some(Reply::Unknown)
        } else {
            None
        }
    }
}
