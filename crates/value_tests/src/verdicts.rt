//! Events that no node sends, one after another, and what is said of each: by the fold, and by a
//! node's certification over its index.

use crate::rows::{Subject, check_rows};
use cert_meaning::{JudgedList, verdicts};
use certification::judge;
use order_event::{Answer, EventList, decode_event};
use report_text::put_answer;
use std::alloc::Global;
use std::process::Abort;
use std::str::from_utf8;
use std::test::Fail;
use wsrep_base::ByteList;

#[derive(Drop)]
struct Order {
    events: EventList,
}

// What became of the last event, as text.
fn last_of(alloc: Global, list: &JudgedList) -> Result<String, Fail> {
    let judged = list.as_slice().last().copied().ok_or("no event")?;
    let mut out = ByteList::new(alloc);
    put_answer(&mut out, &Answer::Judged(list.len() as u64, judged))?;
    Ok(format!(in alloc; "{}", from_utf8(out.as_slice())?)?)
}

impl Subject for Order {
    fn answer(&mut self, alloc: Global, bytes: &[u8]) -> Result<String, Fail> {
        self.events.push(decode_event(alloc, bytes)?)?;
        let events = self.events.as_slice();
        let meant = last_of(alloc, &verdicts(alloc, events)?)?;
        let found = last_of(alloc, &judge(alloc, events)?)?;
        if found.as_str() == meant.as_str() {
            Ok(meant)
        } else {
            Ok(format!(in alloc; "{meant}, and by the index {found}")?)
        }
    }
}

fn check_order(rt: &impl Abort, alloc: Global, table: &str) -> Result<(), Fail> {
    let events = EventList::new(alloc);
    check_rows(rt, alloc, &mut Order { events }, table)
}

// Member 1 alone is a member. Its transactions 2 and 3 have keys that touch.
const TABLE: &str = "\
02 00000001 00000001 00000001 : VIEW 1
01 00000001 00000044 member1 1 1 00000000 03 1 whole : PASS 2 COMMIT
01 00000001 00000044 member1 1 1 00000000 03 1 whole : FAIL 3 REPEAT
03 00000001 3 : REPORT 4
01 00000001 00000044 member1 2 1 00000000 03 1 whole : FAIL 5 STALE
01 00000001 00000001 01 : FAIL 6 MALFORMED
01 00000002 00000044 member2 1 1 00000000 03 3 whole : FAIL 7 STRANGER
01 00000001 00000044 member2 1 1 00000000 03 3 whole : FAIL 8 STRANGER
01 00000001 00000044 member1 3 1 00000000 03 9 whole : FAIL 9 FUTURE
01 00000001 00000044 member1 4 2 00000000 01 3 whole : PASS 10 FRAGMENT
01 00000001 00000044 member1 5 3 00000000 03 3 whole : FAIL 11 HELD 10
01 00000001 0000002a member1 6 2 00000000 04 3 00000000 00000000 : PASS 12 ROLLBACK
01 00000001 00000044 member1 7 2 00000001 00 3 whole : FAIL 13 BROKEN";

// One write set in several events, and forms of it: cut by a byte, sent by another, of the future.
const FOREIGN: &str = "\
02 00000001 00000001 00000001 : VIEW 1
01 00000001 00000044 member1 1 1 00000000 03 1 whole : PASS 2 COMMIT
01 00000001 00000044 member1 1 1 00000000 03 1 whole : FAIL 3 REPEAT
03 00000001 3 : REPORT 4
01 00000001 00000044 member1 2 1 00000000 03 1 whole : FAIL 5 STALE
01 00000001 00000043 member1 1 1 00000000 03 1 00000001 key 00000001 insert 01 00000000000000 : \
FAIL 6 MALFORMED
01 00000002 00000044 member1 1 1 00000000 03 1 whole : FAIL 7 STRANGER
01 00000001 00000044 member1 3 1 00000000 03 8 whole : FAIL 8 FUTURE";

// Both members report what they have committed; a commit up to that is not tested against.
const REPORTED: &str = "\
02 00000001 00000002 00000001 00000002 : VIEW 1
01 00000001 00000044 member1 1 1 00000000 03 1 whole : PASS 2 COMMIT
03 00000001 2 : REPORT 3
03 00000002 2 : REPORT 4
01 00000002 00000044 member2 1 1 00000000 03 1 whole : FAIL 5 STALE
01 00000002 00000044 member2 2 2 00000000 03 2 whole : PASS 6 COMMIT
01 00000001 00000044 member1 2 2 00000000 03 2 whole : FAIL 7 CONFLICT 6";

// The latest commit of each kind, at a row and at its table, above what was last seen.
const CONFLICTS: &str = "\
02 00000001 00000002 00000001 00000002 : VIEW 1
01 00000001 00000044 member1 1 1 00000000 03 1 whole : PASS 2 COMMIT
01 00000002 00000045 member2 1 1 00000000 03 1 updated : FAIL 3 CONFLICT 2
01 00000002 00000045 member2 2 2 00000000 03 2 updated : PASS 4 COMMIT
01 00000001 00000033 member1 2 2 00000000 03 3 share : PASS 5 COMMIT
01 00000001 00000045 member1 3 3 00000000 03 3 updated : FAIL 6 CONFLICT 4
01 00000002 00000031 member2 3 3 00000000 03 4 whole_table : FAIL 7 CONFLICT 5
01 00000002 00000031 member2 4 4 00000000 03 4 share_table : PASS 8 COMMIT
01 00000001 00000033 member1 4 4 00000000 03 4 other : PASS 9 COMMIT
01 00000001 00000031 member1 5 5 00000000 03 9 whole_table : PASS 10 COMMIT
01 00000002 00000033 member2 5 5 00000000 03 9 share : FAIL 11 CONFLICT 10
03 00000001 a : REPORT 12
03 00000002 9 : REPORT 13
01 00000002 00000033 member2 6 6 00000000 03 8 share : FAIL 14 STALE
01 00000002 00000033 member2 7 7 00000000 03 9 share : FAIL 15 CONFLICT 10
03 00000002 a : REPORT 16
01 00000002 00000033 member2 8 8 00000000 03 a share : PASS 17 COMMIT
01 00000002 00000045 member2 9 9 00000000 03 a updated : PASS 18 COMMIT
01 00000001 00000044 member1 6 6 00000000 03 a whole : FAIL 19 CONFLICT 18";

#[test]
fn events_get_their_verdicts(rt: HostRuntime) -> Result<(), Fail> {
    check_order(&rt, rt.alloc(), TABLE)
}

#[test]
fn foreign_events_get_their_verdicts(rt: HostRuntime) -> Result<(), Fail> {
    check_order(&rt, rt.alloc(), FOREIGN)
}

#[test]
fn reported_commits_are_not_tested_against(rt: HostRuntime) -> Result<(), Fail> {
    check_order(&rt, rt.alloc(), REPORTED)
}

#[test]
fn latest_commits_conflict(rt: HostRuntime) -> Result<(), Fail> {
    check_order(&rt, rt.alloc(), CONFLICTS)
}
