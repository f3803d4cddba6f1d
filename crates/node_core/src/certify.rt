ghost use Rattle.std.specs.Prelude.{◌≡◌, IfOk, OnErr};
ghost use Rattle.node_meaning.specs.Steps.{verdict_of};
ghost use Rattle.node_core.specs.Certifying.{is_write_of, told_if};

use crate::answers::Certified;
use crate::node::NodeParts;
use client_trx::Outcome;
use node_parts::session_of;
use order_event::Event;
use row_locks::Holder;
use undo_rows::Rows;
use wsrep_base::{Judged, NoMemory, Verdict};

impl NodeParts {
    ghost use Rattle.node_meaning.specs.Steps.{certify_step, told_verdict, session_of as found};
    ghost use Rattle.node_core.specs.Answers.{certified_answer};
    ghost use Rattle.node_core.specs.Memory.{CertifyWants};
    ghost use Rattle.node_core.specs.Stands.{IsStanding, Stands, Does, Unchanged, Moves, plain_of};

    /// Certifies the next event that was taken, and tells the transaction that sent it.
    pub(crate) fn certify(&mut self) -> Result<Certified, NoMemory>
        requires stands { IsStanding self.old }
        ensures ok { IfOk result
            (λ r. Does (λ order n. certify_step order n) self.old self.new (certified_answer r)) }
        ensures err { OnErr result (Unchanged self.old self.new) }
        ensures some { OnErr result (CertifyWants (plain_of self.old)) }
    {
        if self.at.certified == self.at.taken {
            return Ok(Certified::Nothing);
        }
        let Some(event) = self.inbox.first() else {
            return Ok(Certified::Nothing);
        };
        let is_own = is_write_of(event, self.at.member);
        let told = self.certification.certify(event)?;
        self.inbox.drop_first();
        self.at.certified += 1;
        let number = self.at.certified;
        self.tell_own(is_own, told.begin, number, verdict_of(told.judged));
        Ok(Certified::Judged(number, told.judged))
    }

    // Where the write set is the node's own, the transaction with its begin number is told the
    // verdict.
    fn tell_own(&mut self, is_own: bool, begin: Option<u64>, number: u64, verdict: Verdict)
        ensures { Moves (told_if is_own begin number verdict) self.old self.new }
    {
        if !is_own {
            return;
        }
        match begin {
            Some(begin) => self.tell(number, begin, verdict),
            None => {}
        }
    }

    // The live transaction with this begin number is told the verdict on the write set it sent.
    fn tell(&mut self, number: u64, begin: u64, verdict: Verdict)
        ensures { Moves
            (λ n. told_verdict n number verdict (found n.live begin)) self.old self.new }
    {
        let Some(session) = session_of(&self.live, begin) else {
            return;
        };
        let Some(mut trx) = self.live.take(session) else {
            return;
        };
        if !trx.status().is_sent() {
            self.live.put(session, trx);
            return;
        }
        match trx.judged(number, verdict) {
            Outcome::Lives => self.live.put(session, trx),
            Outcome::Ends(reply) => {
                self.locks.release(Holder::Session(session));
                self.rows.roll_back(session);
                self.waiting.put(session, reply);
            }
        }
    }
}

// Whether the event is a write set of this member.
fn is_write_of(event: &Event, own: u32) -> bool
    ensures { result ≡ is_write_of event.now own }
{
    match event {
        Event::Write { member, .. } => *member == own,
        Event::View { .. } | Event::Report { .. } => false,
    }
}

fn verdict_of(judged: Judged) -> Verdict
    ensures { result ≡ verdict_of judged }
{
    match judged {
        Judged::Fail(verdict) => verdict,
        Judged::View | Judged::Report | Judged::Commit | Judged::Fragment | Judged::Rollback => {
            Verdict::Pass
        }
    }
}
