ghost use Rattle.std.specs.Prelude.{◌≡◌, ◌++◌, OnOk, OnErr};
ghost use Rattle.report_text.specs.Texts.{killed_text, answer_text};

use crate::parts::{append_sessions, append_words};
use crate::replies::{append_judged, append_reply};
use order_event::Answer;
use wsrep_base::{ByteList, NoMemory};

// Most answers have fewer bytes.
const ROOM: usize = 64;

/// Appends the text of an answer, with no line number and no newline, or nothing where memory
/// does not suffice.
pub fn put_answer(out: &mut ByteList, answer: &Answer) -> Result<(), NoMemory>
    ensures ok { OnOk result (out.new ≡ out.old ++ answer_text answer.now) }
    ensures err { OnErr result (out.new ≡ out.old) }
{
    let mut text = ByteList::from(Vec::with_capacity(out.alloc(), ROOM)?);
    append_answer(&mut text, answer)?;
    out.extend(text.as_slice())
}

#[tactic(auto, unfolding(crate::specs::Texts::answer_text))]
fn append_answer(text: &mut ByteList, answer: &Answer) -> Result<(), NoMemory>
    ensures { OnOk result (text.new ≡ text.old ++ answer_text answer.now) }
{
    match answer {
        Answer::Client(reply) => append_reply(text, *reply),
        Answer::Nothing => append_words(text, b"NOTHING", &[]),
        Answer::Ordered(n) => append_words(text, b"ORDERED", &[*n]),
        Answer::Took(n) => append_words(text, b"TOOK", &[*n]),
        Answer::Split => append_words(text, b"SPLIT", &[]),
        Answer::Judged(n, judged) => append_judged(text, *n, *judged),
        Answer::NoUnit(n) => append_words(text, b"NO UNIT", &[*n]),
        Answer::Local(n) => append_words(text, b"LOCAL", &[*n]),
        Answer::NotYet(n) => append_words(text, b"NOT YET", &[*n]),
        Answer::Started(n, sessions) => {
            append_words(text, b"STARTED", &[*n])?;
            append_killed(text, sessions.as_slice())
        }
        Answer::Finished(n) => append_words(text, b"FINISHED", &[*n]),
        Answer::NotReady(n) => append_words(text, b"NOT READY", &[*n]),
        Answer::At(n) => append_words(text, b"AT", &[*n]),
        Answer::Reported(n) => append_words(text, b"REPORTED", &[*n]),
        Answer::Disconnected => append_words(text, b"DISCONNECTED", &[]),
        Answer::NotSynced => append_words(text, b"NOT SYNCED", &[]),
        Answer::Status(taken, certified, committed, floor, entries, open) => append_words(
            text,
            b"STATUS",
            &[*taken, *certified, *committed, *floor, *entries, *open],
        ),
        Answer::Left(n) => append_words(text, b"LEFT", &[*n]),
        Answer::StillJoined => append_words(text, b"STILL JOINED", &[]),
        Answer::NotDrained(taken, committed) => {
            append_words(text, b"NOT DRAINED", &[*taken, *committed])
        }
        Answer::Joining(view, member) => {
            append_words(text, b"JOINING", &[*view])?;
            append_words(text, b" MEMBER", &[u64::from(*member)])
        }
        Answer::NotJoining => append_words(text, b"NOT JOINING", &[]),
        Answer::NoDonor => append_words(text, b"NO DONOR", &[]),
        Answer::DonorBehind(view, at) => append_words(text, b"DONOR BEHIND", &[*view, *at]),
        Answer::DonorBusy(certified, committed) => {
            append_words(text, b"DONOR BUSY", &[*certified, *committed])
        }
        Answer::Ist(first, last) => append_words(text, b"IST", &[*first, *last]),
        Answer::Sst(at) => append_words(text, b"SST", &[*at]),
    }
}

// The sessions whose transactions were aborted.
fn append_killed(text: &mut ByteList, sessions: &[u8]) -> Result<(), NoMemory>
    ensures { OnOk result (text.new ≡ text.old ++ killed_text sessions.now) }
{
    match sessions {
        [] => Ok(()),
        [_, ..] => {
            append_words(text, b" KILLED", &[])?;
            append_sessions(text, sessions)
        }
    }
}
