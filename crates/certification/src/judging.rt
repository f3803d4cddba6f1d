ghost use Rattle.std.specs.Prelude.{◌≡◌, IfOk};
ghost use Rattle.cert_meaning.specs.State.{no_events};
ghost use Rattle.cert_meaning.specs.Fold.{judged_all};

use crate::certification::Certification;
use cert_meaning::JudgedList;
use order_event::Event;
use std::alloc::Global;
use wsrep_base::NoMemory;

/// What becomes of each event of an order, found by the index.
pub fn judge(alloc: Global, events: &[Event]) -> Result<JudgedList, NoMemory>
    ensures { IfOk result (λ list. list ≡ judged_all no_events events.now) }
{
    let mut part = Certification::new(alloc)?;
    let mut list = JudgedList::new(alloc);
    let mut number = 0;
    for event in events {
        list.push(part.certify(event)?.judged)?;
        number += 1;
        part.commit(number);
    }
    Ok(list)
}
