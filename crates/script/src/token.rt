// One token of a script, and the word that it writes.
ghost use Rattle.std.specs.Prelude.{◌≡◌, Some};
ghost use Rattle.script.specs.Tokens.{message_of, digits_in, value_of, word_in};

use crate::digit::hex_value;
use std::error::Error;
use std::fmt;

// Why a token writes no word: the first of these that is met from left to right.
#[derive(Clone, Copy, PartialEq, Eq, Debug)]
pub enum Reason {
    NotHexadecimal,
    NoDigit,
    TooLong,
}

impl Reason {
    // What to tell the author of a script. A method, for callers that have no formatter.
    pub fn message(self) -> &'static str
        ensures { result.now ≡ message_of self }
    {
        match self {
            Reason::NotHexadecimal => "not a hexadecimal digit",
            Reason::NoDigit => "no digit",
            Reason::TooLong => "more than eight digits",
        }
    }
}

// A reason is printed as its message.
impl fmt::Display for Reason {
    ghost output = { λ reason. Some (message_of reason) };

    fn fmt<W: fmt::Write>(&self, f: &mut fmt::Formatter<W>) -> fmt::Result {
        f.write_str(self.message())
    }
}

impl Error for Reason {}

// A word has at most so many digits.
const MOST_DIGITS: usize = 8;

// What follows 0x or 0X, or the whole token.
fn digits_in(token: &[u8]) -> &[u8]
    ensures { result.now ≡ digits_in token.now }
{
    match token {
        [b'0', b'x' | b'X', digits @ ..] => digits,
        _ => token,
    }
}

// The number that digits write. Over `hex_value` and not `to_digit`, with which the loop did not close.
fn value_of(digits: &[u8]) -> Result<u32, Reason>
    ensures { result ≡ value_of digits.now }
{
    if digits.is_empty() {
        return Err(Reason::NoDigit);
    }
    let mut value = 0;
    for (i, byte) in digits.iter().enumerate() {
        let digit = hex_value(*byte).ok_or(Reason::NotHexadecimal)?;
        if i >= MOST_DIGITS {
            return Err(Reason::TooLong);
        }
        value = 16 * value + u32::from(digit);
    }
    Ok(value)
}

// The word that a token writes, or why it writes none.
#[tactic(auto, unfolding(crate::specs::Tokens::word_in))]
pub fn word_in(token: &[u8]) -> Result<u32, Reason>
    ensures { result ≡ word_in token.now }
{
    value_of(digits_in(token))
}
