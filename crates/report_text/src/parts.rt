ghost use Rattle.std.specs.Prelude.{◌≡◌, ◌==◌, ◌≤◌, ◌∷◌, ◌++◌, decimal, OnOk};
ghost use Rattle.std.specs.List.{position_or_len};
ghost use Rattle.report_text.specs.Texts.{spaced, name_text};

use itoa::Buffer;
use wsrep_base::{ByteList, NoMemory};

// A space and the number.
pub(crate) fn append_number(text: &mut ByteList, number: u64) -> Result<(), NoMemory>
    ensures { OnOk result (text.new ≡ text.old ++ 32 ∷ decimal number) }
{
    let mut buffer = Buffer::new();
    text.push(b' ')?;
    text.extend(buffer.format(number).as_bytes())
}

// The numbers, with a space before each.
pub(crate) fn append_numbers(text: &mut ByteList, numbers: &[u64]) -> Result<(), NoMemory>
    ensures { OnOk result (text.new ≡ text.old ++ spaced numbers.now) }
{
    for number in numbers {
        append_number(text, *number)?;
    }
    Ok(())
}

// The numbers of sessions, with a space before each.
pub(crate) fn append_sessions(text: &mut ByteList, sessions: &[u8]) -> Result<(), NoMemory>
    ensures { OnOk result (text.new ≡ text.old ++ spaced sessions.now) }
{
    for session in sessions {
        append_number(text, u64::from(*session))?;
    }
    Ok(())
}

// The words, and then the numbers with a space before each.
pub(crate) fn append_words(
    text: &mut ByteList,
    words: &[u8],
    numbers: &[u64],
) -> Result<(), NoMemory>
    ensures { OnOk result (text.new ≡ text.old ++ (words.now ++ spaced numbers.now)) }
{
    text.extend(words)?;
    append_numbers(text, numbers)
}

// The name without the zero bytes behind it.
pub(crate) fn append_name(text: &mut ByteList, name: &[u8; 16]) -> Result<(), NoMemory>
    ensures { OnOk result (text.new ≡ text.old ++ name_text name.now) }
{
    text.extend(shown(name))
}

// The bytes before the first zero byte.
fn shown(name: &[u8; 16]) -> &[u8]
    ensures { result.now ≡ name_text name.now }
{
    &name[..shown_len(name)]
}

// How many bytes stand before the first zero byte.
fn shown_len(name: &[u8; 16]) -> usize
    ensures count { result ≡ position_or_len (λ b. b == 0) name.now }
    ensures within { result ≤ 16 }
{
    name.iter().take_while(|b| **b != 0).count()
}
