//! Texts of answers that no call of the program gives yet.

use order_event::Answer;
use report_text::put_answer;
use std::alloc::Global;
use std::process::Abort;
use std::test::Fail;
use wsrep_base::ByteList;

fn prints(rt: &impl Abort, alloc: Global, answer: &Answer, text: &str) -> Result<(), Fail> {
    let mut out = ByteList::new(alloc);
    put_answer(&mut out, answer)?;
    assert_eq!(rt; out.as_slice(), text.as_bytes(), "{text}");
    Ok(())
}

#[test]
fn answers_of_joining_have_texts(rt: HostRuntime) -> Result<(), Fail> {
    let table = [
        (Answer::Split, "SPLIT"),
        (Answer::Reported(2), "REPORTED 2"),
        (Answer::Status(5, 4, 3, 2, 7, 1), "STATUS 5 4 3 2 7 1"),
        (Answer::Left(3), "LEFT 3"),
        (Answer::StillJoined, "STILL JOINED"),
        (Answer::NotDrained(4, 2), "NOT DRAINED 4 2"),
        (Answer::Joining(4, 3), "JOINING 4 MEMBER 3"),
        (Answer::NotJoining, "NOT JOINING"),
        (Answer::NoDonor, "NO DONOR"),
        (Answer::DonorBehind(4, 2), "DONOR BEHIND 4 2"),
        (Answer::DonorBusy(3, 2), "DONOR BUSY 3 2"),
        (Answer::Ist(3, 4), "IST 3 4"),
        (Answer::Sst(4), "SST 4"),
    ];
    for (answer, text) in &table {
        prints(&rt, rt.alloc(), answer, text)?;
    }
    Ok(())
}
