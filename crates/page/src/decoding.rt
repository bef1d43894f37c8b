// From 32 bits to a word.
ghost use Rattle.page.specs.Decoded.{codes_of, decoded, page_of, show_of, word_of};
ghost use Rattle.page.specs.Fields.{first_byte, second_byte, show_count, third_byte};
ghost use Rattle.page.specs.Laws.{DecodeUndone, KindRead, Refusals};
ghost use Rattle.page.specs.Numbers.{provided};
ghost use Rattle.std.specs.Option.{ok_or};
ghost use Rattle.std.specs.Prelude.{◌≡◌, ◌^◌, nat_lt};

use crate::fields::{
    Fields, is_code, is_side, is_size, is_turn, kind_number, payload_bits, show_count,
};
use crate::types::{Codes, ElementType, Kind, PaintOperator, Refusal, Word};

// The word that 32 bits say, or why they are refused.
// Not `TryFrom`: `decode` and `encode` say which way they go, and `encode` has no error to name.
pub fn decode(word: u32) -> Result<Word, Refusal>
    ensures value { result ≡ decoded word }
    ensures undone { DecodeUndone word result }
    ensures kind { KindRead word result }
    ensures refusals { Refusals word result }
{
    let kind = Kind::try_from(kind_number(word))?;
    read(kind, word)
}

// The word of a kind, if its payload is in the kind's range.
fn read(kind: Kind, word: u32) -> Result<Word, Refusal>
    ensures { result ≡ ok_or (word_of kind word) Refusal.Payload }
{
    let payload = payload_bits(word);
    let fields = Fields::of(word);
    let (a, b) = fields.signed();
    match kind {
        Kind::Page => page(fields.a, fields.b),
        Kind::Close => in_range(payload == 0, Word::Close),
        Kind::Element => Ok(Word::Element {
            parent: fields.a,
            role: ElementType::try_from(fields.b)?,
        }),
        Kind::Mark => Ok(Word::Mark { element: payload }),
        Kind::Save => in_range(payload == 0, Word::Save),
        Kind::Origin => Ok(Word::Origin { a, b }),
        Kind::Turn => {
            let quarters = byte(payload)?;
            in_range(is_turn(quarters), Word::Turn { quarters })
        }
        Kind::Pen => Ok(Word::Pen { a, b }),
        Kind::Line => Ok(Word::Line { a, b }),
        Kind::Paint => Ok(Word::Paint {
            operator: PaintOperator::try_from(payload)?,
        }),
        Kind::Text => {
            let size = byte(payload)?;
            in_range(is_size(size), Word::Text { size })
        }
        Kind::Place => Ok(Word::Place { a, b }),
        Kind::Show => show(word),
    }
}

// A word, provided that its payload is in its kind's range.
fn in_range(holds: bool, word: Word) -> Result<Word, Refusal>
    ensures { result ≡ ok_or (provided holds word) Refusal.Payload }
{
    holds.then_some(word).ok_or(Refusal::Payload)
}

// A payload of one byte.
fn byte(payload: u32) -> Result<u8, Refusal>
    ensures { result ≡ ok_or (provided (nat_lt payload (2 ^ 8)) payload) Refusal.Payload }
{
    u8::try_from(payload).map_err(|_| Refusal::Payload)
}

// A page of two sides.
fn page(width: u16, height: u16) -> Result<Word, Refusal>
    ensures { result ≡ ok_or (page_of width height) Refusal.Payload }
{
    in_range(
        is_side(width) && is_side(height),
        Word::Page { width, height },
    )
}

// A show word, if its bytes are codes.
fn show(word: u32) -> Result<Word, Refusal>
    ensures { result ≡ ok_or (show_of (codes_of (show_count word) (first_byte word) (second_byte word) (third_byte word))) Refusal.Payload }
{
    let [_, x, y, z] = word.to_be_bytes();
    let codes = codes(show_count(word), x, y, z)?;
    Ok(Word::Show { codes })
}

// The first `count` of three bytes, if they are codes and the other bytes are 0.
fn codes(count: u32, x: u8, y: u8, z: u8) -> Result<Codes, Refusal>
    ensures { result ≡ ok_or (codes_of count x y z) Refusal.Payload }
{
    match count {
        1 if is_code(x) && y == 0 && z == 0 => Ok(Codes::One(x)),
        2 if is_code(x) && is_code(y) && z == 0 => Ok(Codes::Two(x, y)),
        3 if is_code(x) && is_code(y) && is_code(z) => Ok(Codes::Three(x, y, z)),
        _ => Err(Refusal::Payload),
    }
}
