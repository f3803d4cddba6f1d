ghost use Rattle.std.specs.Prelude.{◌≡◌, ◌<◌, true};

use crate::node::NodeParts;
use node_meaning::Phase;
use wsrep_base::StateId;

impl NodeParts {
    ghost use Rattle.node_meaning.specs.Node.{is_left};
    ghost use Rattle.node_meaning.specs.Joining.{IsAtRest, joined_node};
    ghost use Rattle.node_core.specs.Stands.{IsStanding, Does, quietly, plain_of};

    /// The node is a new member, which enters with this view, and waits for the state that it
    /// misses. Where it joins fresh, it keeps nothing of its own.
    pub(crate) fn join(&mut self, fresh: bool, member: u32, view: u64)
        requires stands { IsStanding self.old }
        requires left { is_left self.old.at.phase ≡ true }
        requires rests { IsAtRest (plain_of self.old) }
        requires member { self.old.at.member < member }
        ensures { Does (quietly (joined_node fresh member view)) self.old self.new tt }
    {
        self.at.phase = Phase::Joining;
        self.at.member = member;
        self.at.view = view;
        self.at.serial = 1;
        self.at.begin = 1;
        if fresh {
            self.id = StateId::nil();
        }
    }
}
