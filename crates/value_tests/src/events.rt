//! Bytes of events, and of what is none.

use crate::rows::{Subject, check_rows};
use order_event::{Event, decode_event};
use std::alloc::Global;
use std::test::Fail;

#[derive(Drop)]
struct Events;

fn text_of(alloc: Global, event: &Event) -> Result<String, Fail> {
    match event {
        Event::View { version, members } => {
            Ok(format!(in alloc; "view {version} of {:?}", members.as_slice())?)
        }
        Event::Write { member, body } => {
            Ok(format!(in alloc; "member {member} writes {:?}", body.as_slice())?)
        }
        Event::Report { member, number } => {
            Ok(format!(in alloc; "member {member} reports {number}")?)
        }
    }
}

impl Subject for Events {
    fn answer(&mut self, alloc: Global, bytes: &[u8]) -> Result<String, Fail> {
        match decode_event(alloc, bytes) {
            Ok(event) => text_of(alloc, &event),
            Err(fault) => Ok(format!(in alloc; "{fault}")?),
        }
    }
}

const TABLE: &str = "\
02 00000001 00000001 00000002 : view 1 of [2]
02 00000001 00000002 00000002 00000003 : view 1 of [2, 3]
01 00000102 00000002 6e6f : member 258 writes [110, 111]
03 00000001 3 : member 1 reports 3
04 00000000 3 : the tag is not known
03 00000001 00000000 000000 : byte 5: the field is cut short
03 00000001 3 00 : byte 13: bytes follow the event
02 00000001 00000002 00000003 00000003 : byte 13: out of order
02 00000001 00000002 00000003 0000 : byte 13: the field is cut short
01 00000001 00000002 6e : byte 9: the field is cut short";

#[test]
fn events_are_read(rt: HostRuntime) -> Result<(), Fail> {
    check_rows(&rt, rt.alloc(), &mut Events, TABLE)
}
