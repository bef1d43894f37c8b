// From a word to its 32 bits.
ghost use Rattle.page.specs.Encoded.{encoded, with_payload};
ghost use Rattle.page.specs.Fields.{joined};
ghost use Rattle.page.specs.Laws.{EncodeRefused, EncodeUndone};
ghost use Rattle.page.specs.Numbers.{provided, word_kind};
ghost use Rattle.std.specs.Prelude.{◌≡◌};

use crate::fields::{Fields, Payload, is_code, is_side, is_size, is_turn, join};
use crate::types::{Codes, ElementType, Kind, Word};

// The bits of a word, if each of its fields is in range.
// Not `TryFrom`: it has no error to name, and stands beside `decode`, each with named clauses.
pub fn encode(word: Word) -> Option<u32>
    ensures value { result ≡ encoded word }
    ensures undone { EncodeUndone word result }
    ensures refused { EncodeRefused word result }
{
    let payload = payload(&word)?;
    Some(join(word.kind(), payload))
}

// The payload of a word, if each of its fields is in range.
fn payload(word: &Word) -> Option<Payload>
    ensures { with_payload (word_kind word.now) result ≡ encoded word.now }
{
    // By reference: matched as a value, or as `*word`, the arm of four variants gets no proof here, where its numbers are
    // passed on as values; where they are printed, by reference, it does.
    match word {
        Word::Page { width, height } => page(*width, *height),
        Word::Close | Word::Save => Some(Payload { bits: 0 }),
        Word::Element { parent, role } => element(*parent, *role),
        Word::Mark { element } => Payload::new(*element),
        Word::Origin { a, b } | Word::Pen { a, b } | Word::Line { a, b } | Word::Place { a, b } =>
            Fields::of_signed(*a, *b).map(Payload::of_fields),
        Word::Turn { quarters } => in_range(is_turn(*quarters), *quarters),
        Word::Paint { operator } => Some(Payload {
            bits: u32::from(*operator),
        }),
        Word::Text { size } => in_range(is_size(*size), *size),
        Word::Show { codes } => show(*codes),
    }
}

// The payload of a page.
fn page(width: u16, height: u16) -> Option<Payload>
    ensures { with_payload Kind.Page result ≡ encoded (Word.Page width height) }
{
    (is_side(width) && is_side(height)).then(|| Payload::of_fields(Fields::new(width, height)))
}

// The payload of an element.
fn element(parent: u16, role: ElementType) -> Option<Payload>
    ensures { with_payload Kind.Element result ≡ encoded (Word.Element parent role) }
{
    (parent < 1 << 14).then(|| Payload::of_fields(Fields::new(parent, u16::from(role))))
}

// The payload of one number, provided that it is in its kind's range.
fn in_range(holds: bool, number: u8) -> Option<Payload>
    ensures { (kind : Kind) → with_payload kind result ≡ provided holds (joined kind number) }
{
    holds.then_some(Payload {
        bits: u32::from(number),
    })
}

// The payload of codes to show.
fn show(codes: Codes) -> Option<Payload>
    ensures { with_payload Kind.Show result ≡ encoded (Word.Show codes) }
{
    let count = codes.count();
    match codes {
        Codes::One(x) if is_code(x) => Some(Payload::of_bytes(count, x, 0, 0)),
        Codes::Two(x, y) if is_code(x) && is_code(y) => Some(Payload::of_bytes(count, x, y, 0)),
        Codes::Three(x, y, z) if is_code(x) && is_code(y) && is_code(z) => {
            Some(Payload::of_bytes(count, x, y, z))
        }
        _ => None,
    }
}
