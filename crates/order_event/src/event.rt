ghost use Rattle.std.specs.Prelude.{◌≡◌, IfOk};

use bytes::Bytes;
use item_list::ItemList;
use wsrep_base::NoMemory;

// The byte that begins the spelling of each kind of event.
pub(crate) const WRITE_TAG: u8 = 1;

pub(crate) const VIEW_TAG: u8 = 2;

pub(crate) const REPORT_TAG: u8 = 3;

/// One event of the total order.
#[derive(Debug, Drop, PartialEq)]
pub enum Event {
    /// A write set of a member, in bytes. They need not be a valid spelling.
    Write { member: u32, body: Bytes },
    /// The members from here on, ascending.
    View { version: u32, members: MemberList },
    /// A member has committed all events up to this number.
    Report { member: u32, number: u64 },
}

impl Event {
    /// The same event. The bytes of a write set are shared.
    pub fn copy(&self) -> Result<Event, NoMemory>
        ensures { IfOk result (λ event. event ≡ self.now) }
    {
        Ok(match self {
            Event::Write { member, body } => Event::Write {
                member: *member,
                body: body.clone()?,
            },
            Event::View { version, members } => Event::View {
                version: *version,
                members: members.copy()?,
            },
            Event::Report { member, number } => Event::Report {
                member: *member,
                number: *number,
            },
        })
    }
}

/// Events, in order.
pub type EventList = ItemList<Event>;

/// Numbers of members, ascending.
pub type MemberList = ItemList<u32>;

/// What a node sends to the group.
#[derive(Debug, Drop, PartialEq)]
pub enum Message {
    /// A write set, in bytes.
    Write(Bytes),
    /// The number up to which the node has committed.
    Report(u64),
}
