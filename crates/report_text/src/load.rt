ghost use Rattle.std.specs.Prelude.{◌≡◌, ◌<◌, [], ◌∷◌, ◌++◌, OnOk, OnErr};
ghost use Rattle.wsrep_base.specs.declared.limits.TheConstants.{NUMBERS_END};
ghost use Rattle.report_text.specs.Load.{counts_of, together, IsCountOf};
ghost use Rattle.report_text.specs.Load.{count_line, answers_text, counts_text, first_sum, sum_text};

use crate::parts::append_words;
use itoa::Buffer;
use order_event::Answer;
use row_model::{Reply, RowItem, RowList};
use wsrep_base::{ByteList, NoMemory};

/// How many answers of a generated schedule were of each kind.
#[derive(Clone, Copy, Debug, PartialEq, Eq)]
pub struct LoadCounts {
    /// `COMMITTED n`, n being above 0.
    pub committed: u64,
    pub deadlock_cert: u64,
    pub deadlock_bf: u64,
    /// `BUSY`, `BUSY APPLY` and `HELD`.
    pub busy: u64,
}

impl LoadCounts {
    /// The counts of no answers.
    pub fn new() -> LoadCounts
        ensures { result ≡ counts_of [] }
    {
        LoadCounts {
            committed: 0,
            deadlock_cert: 0,
            deadlock_bf: 0,
            busy: 0,
        }
    }

    /// Counts one answer more. No count is above 2^63.
    pub fn add(&mut self, answer: &Answer)
        requires { IsCountOf NUMBERS_END self.old }
        ensures { self.new ≡ together self.old (counts_of (answer.now ∷ [])) }
    {
        let Answer::Client(reply) = answer else {
            return;
        };
        match reply {
            Reply::Committed(n) if *n > 0 => self.committed += 1,
            Reply::DeadlockCert(_) => self.deadlock_cert += 1,
            Reply::DeadlockBf(_) => self.deadlock_bf += 1,
            Reply::Busy(_) | Reply::BusyApply(_) | Reply::HeldBy(_) => self.busy += 1,
            _ => {}
        }
    }
}

/// Appends what the schedule was, the counts of its answers, and how many events were ordered.
/// Nothing is appended where memory does not suffice.
pub fn put_counts(
    out: &mut ByteList,
    seed: u64,
    count: u64,
    counts: &LoadCounts,
    events: u64,
) -> Result<(), NoMemory>
    ensures ok { OnOk result (out.new ≡ out.old ++ counts_text seed count counts.now events) }
    ensures err { OnErr result (out.new ≡ out.old) }
{
    let mut text = ByteList::new(out.alloc());
    append_load(&mut text, seed, count, counts, events)?;
    out.extend(text.as_slice())
}

#[tactic(auto, unfolding(crate::specs::Load::counts_text))]
fn append_load(
    text: &mut ByteList,
    seed: u64,
    count: u64,
    counts: &LoadCounts,
    events: u64,
) -> Result<(), NoMemory>
    ensures { OnOk result (text.new ≡ text.old ++ counts_text seed count counts.now events) }
{
    append_words(text, b"load seed", &[seed])?;
    append_count(text, b" count", count)?;
    append_answers(text, counts)?;
    append_count(text, b"events", events)
}

#[tactic(auto, unfolding(crate::specs::Load::answers_text))]
fn append_answers(text: &mut ByteList, counts: &LoadCounts) -> Result<(), NoMemory>
    ensures { OnOk result (text.new ≡ text.old ++ answers_text counts.now) }
{
    append_count(text, b"committed", counts.committed)?;
    append_count(text, b"deadlock cert", counts.deadlock_cert)?;
    append_count(text, b"deadlock bf", counts.deadlock_bf)?;
    append_count(text, b"busy", counts.busy)
}

// The words and the number, to the end of the line.
fn append_count(text: &mut ByteList, words: &[u8], number: u64) -> Result<(), NoMemory>
    ensures { OnOk result (text.new ≡ text.old ++ count_line words.now number) }
{
    append_words(text, words, &[number])?;
    text.push(b'\n')
}

/// Appends the line of a node: how far it has committed, how many rows it has, and the sum of
/// their first values. Nothing is appended where memory does not suffice.
pub fn put_sum(out: &mut ByteList, node: u8, at: u64, rows: &RowList) -> Result<(), NoMemory>
    ensures ok { OnOk result (out.new ≡ out.old ++ sum_text node at rows.now) }
    ensures err { OnErr result (out.new ≡ out.old) }
{
    let mut text = ByteList::new(out.alloc());
    append_sum(&mut text, node, at, rows.as_slice())?;
    out.extend(text.as_slice())
}

#[tactic(auto, unfolding(crate::specs::Load::sum_text))]
fn append_sum(text: &mut ByteList, node: u8, at: u64, rows: &[RowItem]) -> Result<(), NoMemory>
    ensures { OnOk result (text.new ≡ text.old ++ sum_text node at rows.now) }
{
    append_words(text, b"node", &[u64::from(node)])?;
    append_words(text, b" at", &[at])?;
    append_words(text, b" rows", &[rows.len() as u64])?;
    text.extend(b" sum ")?;
    let mut buffer = Buffer::new();
    text.extend(buffer.format(first_sum(rows)).as_bytes())?;
    text.push(b'\n')
}

// The sum of the first values. A hundred and twenty-eight bits hold that of any rows.
fn first_sum(rows: &[RowItem]) -> u128
    ensures { result ≡ first_sum rows.now }
{
    let mut sum: u128 = 0;
    for item in rows {
        sum += u128::from(item.row.values()[0]);
    }
    sum
}
