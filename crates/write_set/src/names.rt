//! Names: their form, reading them and writing them.

ghost use Rattle.std.specs.Prelude.{◌≡◌, ◌==◌, ◌++◌, ◌≤◌, ◌<◌, not, length, IfSome, OnOk};
ghost use Rattle.std.specs.List.{list_all, position};
ghost use Rattle.write_set.specs.Names.{admits, is_name, name_len, padded, is_table_letter, is_row_letter};
ghost use Rattle.write_set.specs.Reading.{Gives, fault_of, name_at};
ghost use Rattle.write_set.specs.Spelling.{name_text};

use crate::fault::{Cursor, WsFault};
use wsrep_base::{ByteList, NoMemory};

/// What a name names, which says what letters it has and which fault it is where it is outside
/// its form.
#[derive(Clone, Copy, Debug)]
pub enum NameRole {
    KeyTable,
    KeyRow,
    ChangeTable,
    ChangeRow,
}

fn is_table_letter(b: u8) -> bool
    ensures { result ≡ is_table_letter b }
{
    b >= b'a' && b <= b'z'
}

fn is_row_letter(b: u8) -> bool
    ensures { result ≡ is_row_letter b }
{
    is_table_letter(b) || (b >= b'0' && b <= b'9')
}

impl NameRole {
    fn admits(self, b: u8) -> bool
        ensures { result ≡ admits self b }
    {
        match self {
            NameRole::KeyTable => is_table_letter(b),
            NameRole::ChangeTable => is_table_letter(b),
            NameRole::KeyRow => is_row_letter(b),
            NameRole::ChangeRow => is_row_letter(b),
        }
    }

    fn fault(self, at: usize) -> WsFault
        ensures { result ≡ fault_of self at }
    {
        match self {
            NameRole::KeyTable => WsFault::BadKey(at),
            NameRole::KeyRow => WsFault::BadKey(at),
            NameRole::ChangeTable => WsFault::BadChange(at),
            NameRole::ChangeRow => WsFault::BadChange(at),
        }
    }
}

// The place of the first byte that is no letter of such a name.
fn first_bad(role: NameRole, name: &[u8]) -> Option<usize>
    ensures place { result ≡ position (λ b. not (admits role b)) name.now }
    ensures below { IfSome result (λ index. index < length name.now) }
{
    name.iter().position(|b| !role.admits(*b))
}

// The sixteen bytes of a name.
fn padded(name: &[u8]) -> [u8; 16]
    requires { length name.now ≤ 16 }
    ensures { result ≡ padded name.now }
{
    let mut padded = [0; 16];
    padded[..name.len()].copy_from_slice(name);
    padded
}

/// Reads a name: a byte from 1 to 16, and so many letters.
#[tactic(auto, unfolding(crate::specs::Reading::name_at))]
pub fn name_of<'a>(role: NameRole, cursor: Cursor<'a>) -> Result<([u8; 16], Cursor<'a>), WsFault>
    ensures { Gives (λ x. (x.0, x.1)) result (name_at role cursor.entry) }
{
    let at = cursor.at();
    let (count, after) = cursor.number8()?;
    if count == 0 || count > 16 {
        return Err(role.fault(at));
    }
    let start = after.at();
    let (name, after) = after.bytes(usize::from(count))?;
    match first_bad(role, name) {
        Some(index) => Err(role.fault(start + index)),
        None => Ok((padded(name), after)),
    }
}

// How many bytes stand before the first zero.
fn name_len(name: &[u8; 16]) -> usize
    ensures count { result ≡ name_len name.now }
    ensures most { result ≤ 16 }
{
    name.iter().take_while(|b| **b != 0).count()
}

fn are_letters(role: NameRole, bytes: &[u8]) -> bool
    ensures { result ≡ list_all (admits role) bytes.now }
{
    bytes.iter().all(|b| role.admits(*b))
}

fn are_zeros(bytes: &[u8]) -> bool
    ensures { result ≡ list_all (λ b. b == 0) bytes.now }
{
    bytes.iter().all(|b| *b == 0)
}

/// Whether the sixteen bytes are a name of such letters.
#[tactic(auto, unfolding(crate::specs::Names::is_name))]
pub(crate) fn is_name(role: NameRole, name: &[u8; 16]) -> bool
    ensures { result ≡ is_name (admits role) name.now }
{
    let len = name_len(name);
    len != 0 && are_letters(role, &name[..len]) && are_zeros(&name[len..])
}

/// Appends the number of the name's letters, and the letters.
pub(crate) fn put_name(out: &mut ByteList, name: &[u8; 16]) -> Result<(), NoMemory>
    ensures { OnOk result (out.new ≡ out.old ++ name_text name.now) }
{
    let len = name_len(name);
    out.push(len as u8)?;
    out.extend(&name[..len])
}
