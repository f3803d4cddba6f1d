ghost use Rattle.std.specs.Prelude.{List, IfOk, OnErr};

use crate::answers::Reported;
use crate::node::NodeParts;
use node_meaning::Phase;
use order_event::Message;
use wsrep_base::NoMemory;

impl NodeParts {
    ghost use Rattle.node_meaning.specs.Steps.{report_step};
    ghost use Rattle.node_core.specs.Answers.{reported_answer};
    ghost use Rattle.node_core.specs.Memory.{ReportWants};
    ghost use Rattle.node_core.specs.Stands.{Does, Unchanged, plain_of};

    /// A report of what is committed waits to be ordered, where the node may send one.
    pub(crate) fn report(&mut self) -> Result<Reported, NoMemory>
        ensures ok { IfOk result
            (λ r. Does (λ order n. report_step n) self.old self.new (reported_answer r)) }
        ensures err { OnErr result (Unchanged self.old self.new) }
        ensures sends { OnErr result (ReportWants (plain_of self.old)) }
    {
        match self.at.phase {
            Phase::Left => Ok(Reported::Disconnected),
            Phase::Joining => Ok(Reported::NotSynced),
            Phase::Connected if self.at.committed < self.at.view => Ok(Reported::NotSynced),
            Phase::Connected => {
                self.queue.push(Message::Report(self.at.committed))?;
                Ok(Reported::Sent(self.at.committed))
            }
        }
    }
}
