ghost use Rattle.std.specs.Prelude.{◌≡◌, ◌+◌, ◌<◌, ◌^◌};
ghost use Rattle.state_transfer.specs.Plan.{plan_of};

use crate::transfer::Plan;

/// How a node gets what it misses behind this position, from a donor whose ring holds this range
/// of events. `same` says whether both have the same state id. It takes no memory.
pub fn plan(same: bool, position: u64, range: Option<(u64, u64)>) -> Plan
    requires { position + 1 < 2 ^ 64 }
    ensures { result ≡ plan_of same position range }
{
    let next = position + 1;
    match range {
        Some((oldest, youngest)) => if same && oldest <= next && next <= youngest {
            Plan::Ist(next)
        } else {
            Plan::Sst
        },
        None => Plan::Sst,
    }
}
