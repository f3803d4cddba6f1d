//! Bytes of write sets, and of what is none.

use crate::rows::{Subject, check_rows};
use std::alloc::Global;
use std::test::Fail;
use write_set::{WriteSet, decode};

#[derive(Drop)]
struct WriteSets;

// Member, serial and begin number; fragment, flags and last seen; how many keys and changes.
fn text_of(alloc: Global, set: &WriteSet) -> Result<String, Fail> {
    let of = (set.member, set.serial, set.begin);
    let part = (set.fragment, set.flags, set.last_seen);
    let counts = (set.keys.len(), set.ops.len());
    Ok(format!(in alloc; "{of:?} {part:?} {counts:?}")?)
}

impl Subject for WriteSets {
    fn answer(&mut self, alloc: Global, bytes: &[u8]) -> Result<String, Fail> {
        match decode(alloc, bytes) {
            Ok(set) => text_of(alloc, &set),
            Err(fault) => Ok(format!(in alloc; "{fault}")?),
        }
    }
}

const TABLE: &str = "\
member1 2 3 00000000 03 4 whole : (1, 2, 3) (0, 3, 4) (1, 1)
member1 2 3 00000001 00 4 whole : (1, 2, 3) (1, 0, 4) (1, 1)
member1 2 3 00000000 04 4 00000000 00000000 : (1, 2, 3) (0, 4, 4) (0, 0)
09 : version 9 is not known
member1 2 3 00000000 00 4 whole : the flags break a rule
member1 2 3 00000000 02 4 whole : the flags break a rule
member1 2 3 00000000 04 4 whole : the flags break a rule
member1 2 3 00000000 05 4 whole : the flags break a rule
member1 2 3 00000001 01 4 whole : the flags break a rule
member1 2 3 00000000 03 4 00001001 : byte 34: too many keys or changes
member1 2 3 00000000 03 4 00000001 00 : byte 38: no key
member1 2 3 00000000 03 4 00000001 0204 : byte 39: no kind of key
member1 2 3 00000000 03 4 00000001 0203 0461636374 0141 : byte 46: no key
member1 2 3 00000000 03 4 00000002 key key 00000000 : byte 47: out of order
member1 2 3 00000000 03 4 00000001 key 00002001 : byte 47: too many keys or changes
member1 2 3 00000000 03 4 00000001 key 00000001 04 : byte 51: no change
member1 2 3 00000000 03 4 00000001 key 00000001 insert 01 00 : byte 60: the field is cut short
member1 2 3 00000000 03 4 00000001 key 00000001 update 02 02 5 02 : byte 69: out of order
member1 2 3 00000000 03 4 whole 00 : byte 68: bytes follow the last change
member1 2 3 00000000 03 4 00000000 00000001 insert 01 5 : change 0 is covered by no key";

#[test]
fn write_sets_are_read(rt: HostRuntime) -> Result<(), Fail> {
    check_rows(&rt, rt.alloc(), &mut WriteSets, TABLE)
}
