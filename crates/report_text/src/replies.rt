ghost use Rattle.std.specs.Prelude.{◌≡◌, [], ◌∷◌, ◌++◌, codes, OnOk};
ghost use Rattle.report_text.specs.Texts.{spaced, verdict_text, judged_text, reply_text};

use crate::parts::append_words;
use row_model::Reply;
use wsrep_base::{ByteList, Judged, NoMemory, Verdict};

#[tactic(auto, unfolding(crate::specs::Texts::verdict_text))]
fn append_verdict(text: &mut ByteList, verdict: Verdict) -> Result<(), NoMemory>
    ensures { OnOk result (text.new ≡ text.old ++ verdict_text verdict) }
{
    match verdict {
        Verdict::Pass => append_words(text, b"PASS", &[]),
        Verdict::Malformed => append_words(text, b"MALFORMED", &[]),
        Verdict::Stranger => append_words(text, b"STRANGER", &[]),
        Verdict::Repeat => append_words(text, b"REPEAT", &[]),
        Verdict::Future => append_words(text, b"FUTURE", &[]),
        Verdict::Stale => append_words(text, b"STALE", &[]),
        Verdict::Broken => append_words(text, b"BROKEN", &[]),
        Verdict::Conflict(v) => append_words(text, b"CONFLICT", &[v]),
        Verdict::Held(f) => append_words(text, b"HELD", &[f]),
    }
}

#[tactic(auto, unfolding(crate::specs::Texts::judged_text))]
pub(crate) fn append_judged(
    text: &mut ByteList,
    number: u64,
    judged: Judged,
) -> Result<(), NoMemory>
    ensures { OnOk result (text.new ≡ text.old ++ judged_text number judged) }
{
    match judged {
        Judged::View => append_words(text, b"VIEW", &[number]),
        Judged::Report => append_words(text, b"REPORT", &[number]),
        Judged::Commit => append_passed(text, number, b" COMMIT"),
        Judged::Fragment => append_passed(text, number, b" FRAGMENT"),
        Judged::Rollback => append_passed(text, number, b" ROLLBACK"),
        Judged::Fail(verdict) => {
            append_words(text, b"FAIL", &[number])?;
            text.push(b' ')?;
            append_verdict(text, verdict)
        }
    }
}

// A write set that passed, and what it was.
fn append_passed(text: &mut ByteList, number: u64, kind: &[u8]) -> Result<(), NoMemory>
    ensures { OnOk result
        (text.new ≡ text.old ++ (codes "PASS" ++ spaced (number ∷ []) ++ kind.now)) }
{
    append_words(text, b"PASS", &[number])?;
    text.extend(kind)
}

#[tactic(auto, unfolding(crate::specs::Texts::reply_text))]
pub(crate) fn append_reply(text: &mut ByteList, reply: Reply) -> Result<(), NoMemory>
    ensures { OnOk result (text.new ≡ text.old ++ reply_text reply) }
{
    match reply {
        Reply::Done => append_words(text, b"OK", &[]),
        Reply::Row(row) => append_words(text, b"ROW", row.values()),
        Reply::Running => append_words(text, b"RUNNING", &[]),
        Reply::Pending => append_words(text, b"PENDING", &[]),
        Reply::Committed(n) => append_words(text, b"COMMITTED", &[n]),
        Reply::RolledBack => append_words(text, b"ROLLED BACK", &[]),
        Reply::NoTrx => append_words(text, b"NO TRX", &[]),
        Reply::InTrx => append_words(text, b"IN TRX", &[]),
        Reply::NoRow => append_words(text, b"NO ROW", &[]),
        Reply::Duplicate => append_words(text, b"DUPLICATE", &[]),
        Reply::NoColumn(i) => append_words(text, b"NO COLUMN", &[u64::from(i)]),
        Reply::Busy(s) => append_words(text, b"BUSY", &[u64::from(s)]),
        Reply::BusyApply(n) => append_words(text, b"BUSY APPLY", &[n]),
        Reply::HeldBy(f) => append_words(text, b"HELD", &[f]),
        Reply::TooLarge => append_words(text, b"TOO LARGE", &[]),
        Reply::DeadlockCert(v) => append_words(text, b"DEADLOCK CERT", &[v]),
        Reply::DeadlockBf(n) => append_words(text, b"DEADLOCK BF", &[n]),
        Reply::Unknown => append_words(text, b"UNKNOWN", &[]),
        Reply::Disconnected => append_words(text, b"DISCONNECTED", &[]),
        Reply::NotSynced => append_words(text, b"NOT SYNCED", &[]),
    }
}
