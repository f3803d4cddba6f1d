ghost use Rattle.std.specs.Prelude.{◌≡◌, List};
ghost use Rattle.order_event.specs.declared.event.Event.{Event as Ordered};

use crate::answers::Status;
use crate::node::NodeParts;

impl NodeParts {
    ghost use Rattle.node_meaning.specs.Status.{status_step};
    ghost use Rattle.node_core.specs.Answers.{status_answer};
    ghost use Rattle.node_core.specs.Stands.{IsStanding, Stands, plain_of};

    /// Where the node stands, and how much it keeps for certification. It takes no memory.
    pub(crate) fn status(&self) -> Status
        requires stands { IsStanding self.now }
        ensures { (order : List Ordered) → Stands order self.now
            → status_answer result ≡ (status_step order (plain_of self.now)).0 }
    {
        Status {
            taken: self.at.taken,
            certified: self.at.certified,
            committed: self.at.committed,
            floor: self.certification.floor(),
            index: self.certification.entries(),
            open_trx: self.certification.open_trx(),
        }
    }
}
