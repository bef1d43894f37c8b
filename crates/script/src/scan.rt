// A reader that takes a script's words from its text, one after another.
ghost use Rattle.std.specs.Prelude.{◌≡◌, ℕ, ◌-◌, ◌<◌, ◌≤◌, false, length, drop, Some};
ghost use Rattle.std.specs.List.{prefix_len};
ghost use Rattle.script.specs.Readings.{white, ends_comment, in_token, skip_from, next_in, left_after};
ghost use Rattle.script.specs.Texts.{fault_text};

use crate::place::Position;
use crate::token::{Reason, word_in};
use std::error::Error;
use std::fmt;

// A token that cannot be read: where its first byte stands, and why.
#[derive(Clone, Copy, PartialEq, Eq, Debug)]
pub struct Fault {
    pub place: Position,
    pub reason: Reason,
}

// A fault is printed as where it is and why.
impl fmt::Display for Fault {
    ghost output = { λ fault. Some (fault_text fault) };

    fn fmt<W: fmt::Write>(&self, f: &mut fmt::Formatter<W>) -> fmt::Result {
        let Position { line, column } = self.place;
        write!(f, "line {line}, column {column}: {}", self.reason)
    }
}

impl Error for Fault {}

// A text, and what of it is still to be read: an end of the text.
#[derive(Clone, Copy, PartialEq, Eq, Debug)]
pub struct Reader<'a> {
    text: &'a [u8],
    rest: &'a [u8],
    ghost rest_ends_text: { rest.now ≡ drop (length text.now - length rest.now) text.now },
}

// White space: tab, LF, vertical tab, form feed, CR or space.
fn is_white(byte: u8) -> bool
    ensures { result ≡ white byte }
{
    matches!(byte, b'\t'..=b'\r' | b' ')
}

// LF or CR, which ends a comment.
fn ends_comment(byte: u8) -> bool
    ensures { result ≡ ends_comment byte }
{
    byte == b'\n' || byte == b'\r'
}

// A byte that belongs to a token.
fn is_in_token(byte: u8) -> bool
    ensures { result ≡ in_token byte }
{
    !is_white(byte) && byte != b'#'
}

// What follows the white space and the comments in front.
fn skip(text: &[u8]) -> &[u8]
    ensures rest { result.now ≡ skip_from false text.now }
    ensures ends_text { result.now ≡ drop (length text.now - length result.now) text.now }
{
    let mut comment = false;
    for (i, byte) in text.iter().enumerate() {
        if comment {
            comment = !ends_comment(*byte);
        } else if *byte == b'#' {
            comment = true;
        } else if !is_white(*byte) {
            return &text[i..];
        }
    }
    &[]
}

// How many bytes the token in front has.
fn token_len(text: &[u8]) -> usize
    ensures len { result ≡ prefix_len in_token text.now }
    ensures within { result ≤ length text.now }
{
    text.iter().take_while(|byte| is_in_token(**byte)).count()
}

impl<'a> Reader<'a> {
    ghost use Rattle.script.specs.Answers.{left, fault_at, item_of};

    // A reader before the first word.
    pub fn new(text: &'a [u8]) -> Reader<'a>
        ensures left { left result ≡ text.now }
        ensures text { result.text.now ≡ text.now }
    {
        Reader { text, rest: text }
    }

    // Takes the next word; none at the end. After a token that cannot be read the reader stands before that token.
    // Not an `Iterator`: a fault is told again and again, so it is endless, and no `for` or `count` over it is proved.
    // Inlined into the loops that call it for each word.
    #[inline]
    pub fn next(&mut self) -> Result<Option<u32>, Fault>
        ensures item { result ≡ item_of self.old.text.now (next_in (left self.old)) }
        ensures left { left self.new ≡ left_after (next_in (left self.old)) }
        ensures text { self.new.text.now ≡ self.old.text.now }
        ensures shorter { (w : ℕ) → result ≡ Ok (Some w) → length (left self.new) < length (left self.old) }
    {
        self.rest = skip(self.rest);
        if self.rest.is_empty() {
            return Ok(None);
        }
        let (token, after) = self.rest.split_at(token_len(self.rest));
        let start = self.text.len() - self.rest.len();
        let word = word_in(token).map_err(|reason| Fault {
            place: Position::of(self.text, start),
            reason,
        })?;
        self.rest = after;
        Ok(Some(word))
    }
}
