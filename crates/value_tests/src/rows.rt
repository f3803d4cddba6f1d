//! A table is a text of rows `words : answer`. A word is bytes in hexadecimal, one digit alone,
//! which stands for a number of eight bytes, or the name of some bytes.

use std::alloc::Global;
use std::process::Abort;
use std::test::Fail;

/// Who is given the bytes of each row.
pub(crate) trait Subject {
    /// What the bytes come to, as text.
    fn answer(&mut self, alloc: Global, bytes: &[u8]) -> Result<String, Fail>;
}

// The digits of a word.
fn digits_of(word: &str) -> &str {
    match word {
        "member1" => "0100000001",
        "member2" => "0100000002",
        "key" => "020304616363740161",
        "insert" => "0104616363740161",
        "update" => "0204616363740161",
        // The key, and an insert with the value 100.
        "whole" => "00000001020304616363740161000000010104616363740161010000000000000064",
        // The same key for an update, which sets the first column to 5.
        "updated" => "0000000102020461636374016100000001020461636374016101010000000000000005",
        // Keys without a change: that key shared, the key of another row, and those of the table.
        "share" => "0000000102010461636374016100000000",
        "other" => "0000000102030461636374016200000000",
        "share_table" => "000000010101046163637400000000",
        "whole_table" => "000000010103046163637400000000",
        word => word,
    }
}

// The bytes of a row's words.
fn bytes_of(alloc: Global, words: &str) -> Result<Vec<u8>, Fail> {
    let mut text = String::new(alloc);
    for word in words.split_whitespace() {
        if word.len() == 1 {
            text.push_str("000000000000000")?;
        }
        text.push_str(digits_of(word))?;
    }
    Ok(hex::decode(alloc, text)?)
}

fn check_row<S: Subject>(
    rt: &impl Abort,
    alloc: Global,
    subject: &mut S,
    row: &str,
) -> Result<(), Fail> {
    let (words, answer) = row.split_once(" : ").ok_or("a row has no answer")?;
    let bytes = bytes_of(alloc, words)?;
    let found = subject.answer(alloc, &bytes)?;
    assert_eq!(rt; found.as_str(), answer, "{row}");
    Ok(())
}

/// Each row's bytes come to its answer.
pub(crate) fn check_rows<S: Subject>(
    rt: &impl Abort,
    alloc: Global,
    subject: &mut S,
    table: &str,
) -> Result<(), Fail> {
    for row in table.lines() {
        check_row(rt, alloc, subject, row)?;
    }
    Ok(())
}
