ghost use Rattle.std.specs.Prelude.{◌≡◌, IfOk};
ghost use Rattle.cert_meaning.specs.State.{no_events};
ghost use Rattle.cert_meaning.specs.Fold.{judged_all};

use crate::items::JudgedList;
use crate::state::FoldState;
use order_event::Event;
use std::alloc::Global;
use wsrep_base::NoMemory;

/// What becomes of each event of an order, from its first on.
pub fn verdicts(alloc: Global, events: &[Event]) -> Result<JudgedList, NoMemory>
    ensures { IfOk result (λ list. list ≡ judged_all no_events events.now) }
{
    let mut state = FoldState::empty(alloc)?;
    let mut list = JudgedList::new(alloc);
    for event in events {
        list.push(state.step(event)?)?;
    }
    Ok(list)
}
