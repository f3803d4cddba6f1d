//! The id of the state that the nodes begin with.
ghost use Rattle.std.specs.Prelude.{◌≢◌, IfSome};
ghost use Rattle.wsrep_base.specs.StateId.{nil_id};

use wsrep_base::StateId;

pub(crate) fn state_id() -> Option<StateId>
    ensures { IfSome result (λ id. id ≢ nil_id) }
{
    StateId::parse("00000000-0000-0000-0000-0000000000a1")
}
