// Why the machine refuses a step.
ghost use Rattle.machine.specs.Refusals.{number_of, text_of_refusal};
ghost use Rattle.std.specs.Prelude.{◌≡◌, Some};

use std::error::Error;
use std::fmt;

// There are as many as the limit allows, or a place would be outside its range; with the number of the word's refusal.
#[derive(Clone, Copy, PartialEq, Eq, Debug)]
pub enum Refusal {
    Limit = 14,
    Outside = 15,
}

// The number that a refusal is known by.
impl From<Refusal> for u8 {
    ghost from_gives = { λ refusal number. number ≡ number_of refusal };

    fn from(refusal: Refusal) -> u8 {
        refusal as u8
    }
}

impl fmt::Display for Refusal {
    ghost output = { λ refusal. Some (text_of_refusal refusal) };

    fn fmt<W: fmt::Write>(&self, f: &mut fmt::Formatter<W>) -> fmt::Result {
        match self {
            Refusal::Limit => f.write_str("past a limit"),
            Refusal::Outside => f.write_str("outside its range"),
        }
    }
}

impl Error for Refusal {}
