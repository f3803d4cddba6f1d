//! What the group orders and what the nodes of a cluster do with it: events, messages, steps and
//! their answers, and the bytes of an event.
#![tactic(auto)]

mod event;
mod fault;
mod laws;
mod reading;
mod step;
mod writing;

pub use event::{Event, EventList, MemberList, Message};
pub use fault::EventFault;
pub use laws::one_spelling;
pub use reading::decode_event;
pub use step::{Act, Answer, Step};
pub use writing::{encode_event, event_len};
