//! Snapshots that are cut or changed, and what is taken of an installed one.

use bytes::Bytes;
use state_snapshot::{SnapFault, install, take};
use std::alloc::Global;
use std::test::Fail;

/// Two members, a row and a commit: 143 bytes.
const JOINED: &str =
    "5301000000000000000000000000000000a10000000000000004000000000000000100000001000000020000\
    0002000000000000000100000000000000000000000300000000000000040000000000000000000000010461\
    6363740161010000000000000064000000010000000000000002000000010000000000000001000000010203\
    0461636374016100000000";

/// Where its fields begin.
const FIELDS: [usize; 32] = [
    0, 1, 2, 18, 26, 34, 38, 42, 46, 54, 62, 66, 74, 82, 86, 87, 91, 92, 93, 94, 102, 106, 114,
    118, 126, 130, 131, 132, 133, 137, 138, 139,
];

/// Two members, three rows, two commits and two open transactions, one of them of two fragments.
const WHOLE: &str =
    "5301000000000000000000000000000000a10000000000000009000000000000000300000001000000020000\
    0001000000000000000500000000000000070000000200000000000000030000000000000004000000030461\
    6363740161010000000000000046046163637401620200000000000000010000000000000002036c6f670278\
    3101ffffffffffffffff00000002000000000000000400000001000000000000000200000002020304616363\
    7401610101036c6f670000000000000006000000090000000000000001000000010202046163637401620000\
    0002000000010000000000000008000000020000000000000005000000000000000400000002010304616363\
    7402010461636374016100000002010461636374016301000000000000000503046163637401620000000000\
    0000080000000000000006000000010202036c6f670278310000000102036c6f670278310201000000000000\
    0003040000000000000009000000020000000000000001000000010000000000000007000000000000000600\
    00000102030370617901700000000101037061790170010000000000000001";

/// A place of `WHOLE`, another byte for it, and the place of the first field that then breaks a
/// rule.
const CHANGES: [(usize, u8, usize); 59] = [
    (0, 0, 0),
    (17, 0, 2),
    (19, 1, 18),
    (25, 0, 26),
    (41, 0, 46),
    (42, 1, 62),
    (33, 0, 66),
    (38, 1, 86),
    (85, 0, 90),
    (91, 2, 93),
    (87, 98, 102),
    (92, 98, 107),
    (107, 2, 109),
    (93, 2, 110),
    (109, 1, 118),
    (126, 2, 129),
    (85, 2, 130),
    (82, 1, 142),
    (169, 0, 170),
    (170, 1, 178),
    (169, 1, 179),
    (168, 1, 185),
    (209, 0, 209),
    (211, 3, 215),
    (142, 1, 218),
    (209, 1, 220),
    (45, 0, 222),
    (237, 0, 234),
    (245, 0, 246),
    (257, 0, 258),
    (257, 1, 265),
    (258, 2, 266),
    (267, 3, 271),
    (256, 1, 274),
    (277, 0, 278),
    (259, 2, 284),
    (284, 2, 286),
    (278, 2, 287),
    (277, 1, 295),
    (296, 5, 301),
    (237, 1, 303),
    (322, 0, 323),
    (323, 1, 329),
    (321, 1, 332),
    (335, 0, 336),
    (324, 1, 341),
    (341, 3, 344),
    (344, 1, 354),
    (62, 1, 363),
    (225, 2, 367),
    (378, 0, 375),
    (386, 0, 387),
    (398, 0, 399),
    (399, 1, 405),
    (397, 1, 407),
    (412, 2, 415),
    (400, 2, 416),
    (416, 2, 418),
    (411, 2, 419),
];

/// The same, where then too few bytes are there.
const SHORTER: [(usize, u8, usize); 4] = [
    (221, 3, 427),
    (378, 2, 427),
    (409, 1, 427),
    (418, 2, 427),
];

/// The same, where then too many bytes are there: the place is that of the first of these.
const LONGER: [(usize, u8, usize); 5] = [
    (145, 0, 150),
    (145, 1, 189),
    (221, 0, 222),
    (221, 1, 363),
    (410, 0, 411),
];

/// A place of `WHOLE` and another byte for it, with which it is another snapshot.
const OTHERS: [(usize, u8); 6] = [
    (2, 255),
    (80, 1),
    (114, 1),
    (165, 255),
    (269, 100),
    (372, 1),
];

// The bytes that hexadecimal digits spell.
fn bytes_of(alloc: Global, text: &str) -> Result<Vec<u8>, Fail> {
    let bytes = hex::decode(alloc, text).ok().ok_or("hexadecimal digits")?;
    Ok(bytes)
}

// The whole snapshot with another byte at a place.
fn changed(alloc: Global, at: usize, byte: u8) -> Result<Vec<u8>, Fail> {
    let mut bytes = bytes_of(alloc, WHOLE)?;
    let place = bytes.get_mut(at).ok_or("a place of the snapshot")?;
    *place = byte;
    Ok(bytes)
}

fn fault_of(alloc: Global, bytes: &[u8]) -> Option<SnapFault> {
    install(alloc, bytes).err()
}

// What is taken of the state that the bytes spell.
fn taken_again(alloc: Global, bytes: &[u8]) -> Result<Bytes, SnapFault> {
    let (state, id) = install(alloc, bytes)?;
    match take(&state, id) {
        Ok(bytes) => Ok(bytes),
        Err(_) => Err(SnapFault::NoMemory),
    }
}

#[test]
fn a_snapshot_is_short_at_the_field_that_is_cut(rt: HostRuntime) -> Result<(), Fail> {
    let bytes = bytes_of(rt.alloc(), JOINED)?;
    let mut field = 0;
    for length in 0..143_usize {
        if FIELDS.contains(&length) {
            field = length;
        }
        let cut = bytes.get(..length).ok_or("143 bytes")?;
        assert_eq!(rt; fault_of(rt.alloc(), cut), Some(SnapFault::Short(field)));
    }
    Ok(())
}

#[test]
fn no_byte_follows_a_snapshot(rt: HostRuntime) -> Result<(), Fail> {
    let mut bytes = bytes_of(rt.alloc(), JOINED)?;
    bytes.push(0)?;
    assert_eq!(rt;
        fault_of(rt.alloc(), &bytes),
        Some(SnapFault::Trailing(143))
    );
    Ok(())
}

#[test]
fn a_rule_is_broken_at_the_first_field_that_shows_it(rt: HostRuntime) -> Result<(), Fail> {
    for (at, byte, field) in CHANGES {
        let bytes = changed(rt.alloc(), at, byte)?;
        let fault = Some(SnapFault::NotCanonical(field));
        assert_eq!(rt; fault_of(rt.alloc(), &bytes), fault, "{byte} at {at}");
    }
    Ok(())
}

#[test]
fn a_greater_count_wants_more_bytes(rt: HostRuntime) -> Result<(), Fail> {
    for (at, byte, end) in SHORTER {
        let bytes = changed(rt.alloc(), at, byte)?;
        let fault = Some(SnapFault::Short(end));
        assert_eq!(rt; fault_of(rt.alloc(), &bytes), fault, "{byte} at {at}");
    }
    Ok(())
}

#[test]
fn a_lesser_count_leaves_bytes(rt: HostRuntime) -> Result<(), Fail> {
    for (at, byte, end) in LONGER {
        let bytes = changed(rt.alloc(), at, byte)?;
        let fault = Some(SnapFault::Trailing(end));
        assert_eq!(rt; fault_of(rt.alloc(), &bytes), fault, "{byte} at {at}");
    }
    Ok(())
}

#[test]
fn what_is_installed_is_taken_again(rt: HostRuntime) -> Result<(), Fail> {
    for text in [JOINED, WHOLE] {
        let bytes = bytes_of(rt.alloc(), text)?;
        let again = taken_again(rt.alloc(), &bytes).ok().ok_or("a snapshot")?;
        assert_eq!(rt; again.as_slice(), bytes.as_slice());
    }
    Ok(())
}

#[test]
fn another_snapshot_is_taken_again(rt: HostRuntime) -> Result<(), Fail> {
    for (at, byte) in OTHERS {
        let bytes = changed(rt.alloc(), at, byte)?;
        let again = taken_again(rt.alloc(), &bytes).ok().ok_or("a snapshot")?;
        assert_eq!(rt; again.as_slice(), bytes.as_slice());
    }
    Ok(())
}

#[test]
fn a_state_has_the_parts_of_its_snapshot(rt: HostRuntime) -> Result<(), Fail> {
    let bytes = bytes_of(rt.alloc(), WHOLE)?;
    let (state, _) = install(rt.alloc(), &bytes).ok().ok_or("a snapshot")?;
    let parts = state.parts()?;
    assert_eq!(rt; (parts.number, parts.floor, parts.version), (9, 3, 1));
    assert_eq!(rt; (parts.members.len(), parts.rows.len()), (2, 3));
    assert_eq!(rt; (parts.commits.len(), parts.open_trx.len()), (2, 2));
    Ok(())
}

#[test]
fn a_fault_says_where_it_is(rt: HostRuntime) -> Result<(), Fail> {
    let text = format!(in rt.alloc(); "{}", SnapFault::Short(26))?;
    assert_eq!(rt; text.as_str(), "byte 26: the field is cut short");
    Ok(())
}
