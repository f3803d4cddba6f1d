ghost use Rattle.std.specs.Prelude.{◌≡◌};
ghost use Rattle.script_text.specs.Grammar.{call_of, begin_of, insert_of, update_of};

use crate::fields::{change, only_number, only_row, row_id, values};
use crate::words::{Words, alone, is};
use row_model::Call;

// What a client asks.
#[tactic(auto, unfolding(crate::specs::Grammar::call_of))]
pub(crate) fn call(words: &mut Words) -> Option<Call>
    ensures { result ≡ call_of words.old }
{
    let verb = words.next()?;
    if is(verb, b"begin") {
        begin(words)
    } else if is(verb, b"insert") {
        insert(words)
    } else if is(verb, b"update") {
        update(words)
    } else if is(verb, b"delete") {
        Some(Call::Delete(only_row(words)?))
    } else if is(verb, b"share") {
        Some(Call::Share(only_row(words)?))
    } else if is(verb, b"read") {
        Some(Call::Read(only_row(words)?))
    } else if is(verb, b"commit") {
        alone(Call::Commit, words)
    } else if is(verb, b"rollback") {
        alone(Call::Rollback, words)
    } else if is(verb, b"poll") {
        alone(Call::Poll, words)
    } else {
        None
    }
}

// Whether fragments are sent, and after how many changes.
fn begin(words: &mut Words) -> Option<Call>
    ensures { result ≡ begin_of words.old }
{
    match words.next() {
        None => Some(Call::Begin(0)),
        Some(word) if is(word, b"stream") => Some(Call::Begin(only_number(words)?)),
        Some(_) => None,
    }
}

#[tactic(auto, unfolding(crate::specs::Grammar::insert_of))]
fn insert(words: &mut Words) -> Option<Call>
    ensures { result ≡ insert_of words.old }
{
    let table = words.next()?;
    let row = words.next()?;
    let id = row_id(table, row)?;
    Some(Call::Insert(id, values(words)?))
}

#[tactic(auto, unfolding(crate::specs::Grammar::update_of))]
fn update(words: &mut Words) -> Option<Call>
    ensures { result ≡ update_of words.old }
{
    let table = words.next()?;
    let row = words.next()?;
    let id = row_id(table, row)?;
    Some(Call::Update(id, change(words)?))
}
