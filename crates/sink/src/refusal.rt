// Why a sink takes no more.
ghost use Rattle.std.specs.Prelude.{◌≡◌, Some};
ghost use Rattle.sink.specs.Refusals.{number_of, text_of};

use std::error::Error;
use std::fmt;

#[derive(Clone, Copy, PartialEq, Eq, Debug)]
pub enum Refusal {
    // The part has more bytes than there is room for.
    Full = 5,
}

// The number that a refusal is known by.
impl From<Refusal> for u8 {
    ghost from_gives = { λ refusal number. number ≡ number_of refusal };

    fn from(refusal: Refusal) -> u8 {
        refusal as u8
    }
}

impl fmt::Display for Refusal {
    ghost output = { λ refusal. Some (text_of refusal) };

    fn fmt<W: fmt::Write>(&self, f: &mut fmt::Formatter<W>) -> fmt::Result {
        match self {
            Refusal::Full => f.write_str("no room"),
        }
    }
}

impl Error for Refusal {}
