ghost use Rattle.std.specs.Prelude.{◌≡◌, ◌∷◌, ◌==◌, ◌≤◌, not, length, [], MatchOption};
ghost use Rattle.std.specs.List.{position, position_or_len};
ghost use Rattle.std.specs.Str.{bytes_eq};
ghost use Rattle.script_text.specs.Words.{without_newline, text_of, is_blank, words_of, alone};

use std::marker::Model;

// The words that were not read yet.
#[derive(Drop)]
pub(crate) struct Words<'a> {
    rest: &'a [u8],
}

impl<'a> Model for Words<'a> {
    ghost use Rattle.std.specs.Prelude.{List, ℕ};
    ghost use Rattle.script_text.specs.Words.{words_of};

    ghost Value = { List (List ℕ) };

    ghost view = { λ words. words_of words.rest.now };
}

impl<'a> Words<'a> {
    pub(crate) fn of(text: &'a [u8]) -> Words<'a>
        ensures { result ≡ words_of text.now }
    {
        Words { rest: text }
    }

    // Reads the next word.
    pub(crate) fn next(&mut self) -> Option<&'a [u8]>
        ensures { MatchOption result ((self.old ≡ []) × (self.new ≡ []))
            (λ word. self.old ≡ word.now ∷ self.new) }
    {
        let (word, rest) = cut_word(self.rest)?;
        self.rest = rest;
        Some(word)
    }
}

// The first word, and what stands behind it.
fn cut_word(text: &[u8]) -> Option<(&[u8], &[u8])>
    ensures { MatchOption result (words_of text.now ≡ [])
        (λ cut. words_of text.now ≡ cut.0.now ∷ words_of cut.1.now) }
{
    match word_start(text) {
        Some(start) => Some(text[start..].split_at(word_len(&text[start..]))),
        None => None,
    }
}

// Where the first word begins.
fn word_start(text: &[u8]) -> Option<usize>
    ensures { result ≡ position (λ b. not (is_blank b)) text.now }
{
    text.iter().position(|b| !is_blank(*b))
}

// How many bytes stand before the first blank.
fn word_len(text: &[u8]) -> usize
    ensures count { result ≡ position_or_len is_blank text.now }
    ensures within { result ≤ length text.now }
{
    text.iter().take_while(|b| !is_blank(**b)).count()
}

fn is_blank(byte: u8) -> bool
    ensures { result ≡ is_blank byte }
{
    byte == b' ' || byte == b'\t'
}

// The line without the newline that ends it.
pub(crate) fn without_newline(line: &[u8]) -> &[u8]
    ensures { result.now ≡ without_newline line.now }
{
    match line {
        [text @ .., b'\n'] => text,
        _ => line,
    }
}

// What the line says: without its newline, and without one carriage return before that.
#[tactic(auto, unfolding(crate::specs::Words::text_of))]
pub(crate) fn text(line: &[u8]) -> &[u8]
    ensures { result.now ≡ text_of line.now }
{
    match line {
        [text @ .., b'\r', b'\n'] => text,
        [text @ .., b'\n'] => text,
        _ => line,
    }
}

// Where the mark first stands.
pub(crate) fn place_of(text: &[u8], mark: u8) -> Option<usize>
    ensures { result ≡ position (λ b. b == mark) text.now }
{
    text.iter().position(|b| *b == mark)
}

pub(crate) fn is(word: &[u8], keyword: &[u8]) -> bool
    ensures { result ≡ bytes_eq word.now keyword.now }
{
    word == keyword
}

// The value, if no word is left.
pub(crate) fn alone<T: Copy>(value: T, words: &mut Words) -> Option<T>
    ensures { result ≡ alone value words.old }
{
    match words.next() {
        Some(_) => None,
        None => Some(value),
    }
}
