ghost use Rattle.std.specs.Prelude.{◌≡◌, ◌==◌, Some, slice_index};
ghost use Rattle.script_text.specs.Words.{words_of};
ghost use Rattle.script_text.specs.Grammar.{line_of, header_of, first_of, is_passed_over, is_short, judged};

use crate::header::header;
use crate::line::{Header, Line, ScriptCause};
use crate::steps::step;
use crate::words::{Words, text, without_newline};

// The most bytes of a line, without its newline.
const LINE_MAX: usize = 512;

/// Reads a line behind the header, in a cluster of so many nodes. The line has the newline that
/// ends it, if one does. Takes no memory.
#[tactic(auto, unfolding(crate::specs::Grammar::line_of, crate::specs::Grammar::said_of))]
pub fn parse_line(line: &[u8], nodes: u8) -> Result<Line, ScriptCause>
    ensures { result ≡ line_of nodes line.now }
{
    if is_passed_over(text(line)) {
        return within_length(line, Line::Blank);
    }
    match step(&mut Words::of(text(line)), nodes) {
        Ok(step) => within_length(line, Line::Step(step)),
        Err(cause) => Err(cause),
    }
}

/// Reads the header. The line has the newline that ends it, if one does. Takes no memory.
#[tactic(auto, unfolding(crate::specs::Grammar::header_of))]
pub fn parse_header(line: &[u8]) -> Result<Header, ScriptCause>
    ensures { result ≡ header_of line.now }
{
    match header(&mut Words::of(text(line))) {
        Ok(header) => within_length(line, header),
        Err(cause) => Err(cause),
    }
}

/// Reads a line that may be the header: None where it is passed over. Takes no memory.
#[tactic(auto, unfolding(crate::specs::Grammar::first_of, crate::specs::Grammar::header_of))]
pub fn parse_first(line: &[u8]) -> Result<Option<Header>, ScriptCause>
    ensures { result ≡ first_of line.now }
{
    if is_passed_over(text(line)) {
        return within_length(line, None);
    }
    match parse_header(line) {
        Ok(header) => Ok(Some(header)),
        Err(cause) => Err(cause),
    }
}

// The text has no words, or begins with `#`.
#[tactic(auto, unfolding(crate::specs::Grammar::is_passed_over))]
fn is_passed_over(text: &[u8]) -> bool
    ensures { result ≡ is_passed_over (words_of text.now) }
{
    match Words::of(text).next() {
        Some(word) => begins_comment(word),
        None => true,
    }
}

fn begins_comment(word: &[u8]) -> bool
    ensures { result ≡ (slice_index word.now 0 == 35) }
{
    word.first() == Some(&b'#')
}

// What a line says, unless the line is too long.
fn within_length<T: Copy>(line: &[u8], said: T) -> Result<T, ScriptCause>
    ensures { result ≡ judged (λ said. is_short line.now) (Some said) }
{
    if without_newline(line).len() <= LINE_MAX {
        Ok(said)
    } else {
        Err(ScriptCause::Limit)
    }
}
