ghost use Rattle.std.specs.Prelude.{◌≡◌, ◌≤◌, ◌-◌, ◌++◌, length, replicate};
ghost use Rattle.std.specs.Char.{is_ascii_digit};
ghost use Rattle.std.specs.List.{list_all};
ghost use Rattle.script_text.specs.Fields.{number_of, only_number, counting_of, node_of, only_node, name_of};
ghost use Rattle.script_text.specs.Fields.{is_table_letter, is_row_letter, row_id_of, only_row};
ghost use Rattle.script_text.specs.Fields.{values_of, pair_of, change_of};

use crate::words::{Words, alone, place_of};
use row_model::{Change, Row, RowId};

// The most digits of a number.
const MOST_DIGITS: usize = 20;

/// The number that a word of 1 to 20 digits is, where it is below 2^64.
pub fn number(word: &[u8]) -> Option<u64>
    ensures { result ≡ number_of word.now }
{
    if word.len() > MOST_DIGITS || !are_digits(word) {
        return None;
    }
    match str::from_utf8(word) {
        Ok(text) => text.parse().ok(),
        Err(_) => None,
    }
}

fn are_digits(word: &[u8]) -> bool
    ensures { result ≡ list_all is_ascii_digit word.now }
{
    word.iter().all(|b| b.is_ascii_digit())
}

// A number of at least 1.
#[tactic(auto, unfolding(crate::specs::Fields::counting_of))]
pub(crate) fn counting(word: &[u8]) -> Option<u64>
    ensures { result ≡ counting_of word.now }
{
    let number = number(word)?;
    if number == 0 { None } else { Some(number) }
}

// A node of so many.
#[tactic(auto, unfolding(crate::specs::Fields::node_of))]
pub(crate) fn node(word: &[u8], nodes: u8) -> Option<u8>
    ensures { result ≡ node_of nodes word.now }
{
    let node = counting(word)?;
    if node > u64::from(nodes) {
        return None;
    }
    Some(node as u8)
}

#[tactic(auto, unfolding(crate::specs::Fields::row_id_of))]
pub(crate) fn row_id(table: &[u8], row: &[u8]) -> Option<RowId>
    ensures { result ≡ row_id_of table.now row.now }
{
    Some(RowId {
        table: table_name(table)?,
        row: row_name(row)?,
    })
}

#[tactic(auto, unfolding(crate::specs::Fields::name_of))]
fn table_name(word: &[u8]) -> Option<[u8; 16]>
    ensures { result ≡ name_of is_table_letter word.now }
{
    if word.is_empty() || word.len() > 16 || !are_table_letters(word) {
        return None;
    }
    Some(padded(word))
}

#[tactic(auto, unfolding(crate::specs::Fields::name_of))]
fn row_name(word: &[u8]) -> Option<[u8; 16]>
    ensures { result ≡ name_of is_row_letter word.now }
{
    if word.is_empty() || word.len() > 16 || !are_row_letters(word) {
        return None;
    }
    Some(padded(word))
}

fn are_table_letters(word: &[u8]) -> bool
    ensures { result ≡ list_all is_table_letter word.now }
{
    word.iter().all(|b| b.is_ascii_lowercase())
}

fn are_row_letters(word: &[u8]) -> bool
    ensures { result ≡ list_all is_row_letter word.now }
{
    word.iter()
        .all(|b| b.is_ascii_lowercase() || b.is_ascii_digit())
}

fn padded(word: &[u8]) -> [u8; 16]
    requires { length word.now ≤ 16 }
    ensures { result ≡ word.now ++ replicate (16 - length word.now) 0 }
{
    let mut name = [0; 16];
    name[..word.len()].copy_from_slice(word);
    name
}

// A number, and nothing behind it.
#[tactic(auto, unfolding(crate::specs::Fields::only_number))]
pub(crate) fn only_number(words: &mut Words) -> Option<u64>
    ensures { result ≡ only_number words.old }
{
    let word = words.next()?;
    alone(number(word)?, words)
}

// A node of so many, and nothing behind it.
#[tactic(auto, unfolding(crate::specs::Fields::only_node))]
pub(crate) fn only_node(words: &mut Words, nodes: u8) -> Option<u8>
    ensures { result ≡ only_node nodes words.old }
{
    let word = words.next()?;
    alone(node(word, nodes)?, words)
}

// A row, and nothing behind it.
#[tactic(auto, unfolding(crate::specs::Fields::only_row))]
pub(crate) fn only_row(words: &mut Words) -> Option<RowId>
    ensures { result ≡ only_row words.old }
{
    let table = words.next()?;
    let row = words.next()?;
    alone(row_id(table, row)?, words)
}

// The values of a row.
pub(crate) fn values(words: &mut Words) -> Option<Row>
    ensures { result ≡ values_of words.old }
{
    let mut values = [0; Row::MOST];
    let mut count = 0;
    while let Some(word) = words.next() {
        let value = number(word)?;
        if count == Row::MOST {
            return None;
        }
        values[count] = value;
        count += 1;
    }
    Row::of(&values[..count])
}

// A column and its new value.
#[tactic(auto, unfolding(crate::specs::Fields::pair_of))]
fn column_and_value(word: &[u8]) -> Option<(u64, u64)>
    ensures { result ≡ pair_of word.now }
{
    let at = place_of(word, b'=')?;
    Some((number(&word[..at])?, number(&word[at + 1..])?))
}

// New values for the columns of a row.
pub(crate) fn change(words: &mut Words) -> Option<Change>
    ensures { result ≡ change_of words.old }
{
    let mut change = [None; 8];
    let mut last = 0;
    while let Some(word) = words.next() {
        let (column, value) = column_and_value(word)?;
        if column <= last || column > 8 {
            return None;
        }
        change[column as usize - 1] = Some(value);
        last = column;
    }
    if last == 0 { None } else { Some(change) }
}
