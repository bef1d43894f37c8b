// The fields of a word of 32 bits, read and put together, and the ranges that they are held to.
ghost use Rattle.page.specs.Fields.{bits_of, fields, first_byte, is_code, is_side, is_signed, is_size, is_turn, joined, kind_of, payload_of, second_byte, show_count, shown, signed, third_byte, unsigned_a, unsigned_b};
ghost use Rattle.page.specs.Numbers.{provided};
ghost use Rattle.std.specs.Option.{option_map};
ghost use Rattle.std.specs.Prelude.{◌≡◌, ◌^◌, ◌<◌, ◌&&◌, IfSome, nat_lt};

use crate::types::Kind;

// The shortest side of a page.
const SHORTEST_SIDE: u16 = 3;

// The longest side of a page.
const LONGEST_SIDE: u16 = 14_400;

// The most quarters in a turn.
const MOST_QUARTERS: u8 = 3;

// The largest size of text.
const LARGEST_SIZE: u8 = 144;

// The number of a word's kind.
pub(crate) fn kind_number(word: u32) -> u32
    ensures { result ≡ kind_of word }
{
    word >> 28
}

// The bits below the kind.
pub(crate) fn payload_bits(word: u32) -> u32
    ensures { result ≡ payload_of word }
{
    word % (1 << 28)
}

// Two fields of fourteen bits.
#[derive(Clone, Copy, PartialEq, Eq, Debug)]
pub(crate) struct Fields {
    pub(crate) a: u16,
    pub(crate) b: u16,
    ghost a_short: { a < 2 ^ 14 },
    ghost b_short: { b < 2 ^ 14 },
}

impl Fields {
    // The two fields of a word.
    pub(crate) fn of(word: u32) -> Fields
        ensures a { result.a ≡ unsigned_a word }
        ensures b { result.b ≡ unsigned_b word }
    {
        Fields {
            a: ((word >> 14) % (1 << 14)) as u16,
            b: (word % (1 << 14)) as u16,
        }
    }

    // Two numbers as fields. For use in a closure, where a callee's `requires` is found, and a field's fact is not.
    pub(crate) fn new(a: u16, b: u16) -> Fields
        requires a_short { a < 2 ^ 14 }
        requires b_short { b < 2 ^ 14 }
        ensures a { result.a ≡ a }
        ensures b { result.b ≡ b }
    {
        Fields { a, b }
    }

    // The fields with their signs.
    pub(crate) fn signed(self) -> (i32, i32)
        ensures { result ≡ (signed self.a, signed self.b) }
    {
        (with_sign(self.a), with_sign(self.b))
    }

    // The fields that stand for two numbers, if each holds its own.
    pub(crate) fn of_signed(a: i32, b: i32) -> Option<Fields>
        ensures { option_map (λ pair. fields pair.a pair.b) result ≡ provided (is_signed a && is_signed b) (fields (bits_of a) (bits_of b)) }
    {
        Some(Fields {
            a: signed_bits(a)?,
            b: signed_bits(b)?,
        })
    }
}

// What fourteen bits stand for in two's complement.
fn with_sign(bits: u16) -> i32
    ensures { result ≡ signed bits }
{
    let number = i32::from(bits);
    if bits < 1 << 13 {
        number
    } else {
        number - (1 << 14)
    }
}

// The fourteen bits of a number in two's complement, if they hold it.
fn signed_bits(number: i32) -> Option<u16>
    ensures value { result ≡ provided (is_signed number) (bits_of number) }
    ensures short { IfSome result (λ bits. bits < 2 ^ 14) }
{
    (-(1 << 13)..1 << 13)
        .contains(&number)
        .then(|| number.rem_euclid(1 << 14) as u16)
}

// How many codes a word shows.
pub(crate) fn show_count(word: u32) -> u32
    ensures { result ≡ show_count word }
{
    (word >> 24) % 16
}

// What stands below a word's kind.
#[derive(Clone, Copy, PartialEq, Eq, Debug)]
pub(crate) struct Payload {
    pub(crate) bits: u32,
    ghost short: { bits < 2 ^ 28 },
}

impl Payload {
    // The payload of these bits, unless they reach into the kind.
    pub(crate) fn new(bits: u32) -> Option<Payload>
        ensures { option_map (λ payload. payload.bits) result ≡ provided (nat_lt bits (2 ^ 28)) bits }
    {
        (bits < 1 << 28).then(|| Payload::of_bits(bits))
    }

    // Bits below the kind; for use in a closure, like `Fields::new`.
    fn of_bits(bits: u32) -> Payload
        requires { bits < 2 ^ 28 }
        ensures { result.bits ≡ bits }
    {
        Payload { bits }
    }

    // Field a above field b.
    pub(crate) fn of_fields(pair: Fields) -> Payload
        ensures { result.bits ≡ fields pair.a pair.b }
    {
        Payload {
            bits: u32::from(pair.a) * (1 << 14) + u32::from(pair.b),
        }
    }

    // A count above three bytes.
    pub(crate) fn of_bytes(count: u32, x: u8, y: u8, z: u8) -> Payload
        requires { count < 2 ^ 4 }
        ensures { result.bits ≡ shown count x y z }
    {
        Payload {
            bits: count * (1 << 24) + u32::from_be_bytes([0, x, y, z]),
        }
    }
}

// A kind above a payload.
pub(crate) fn join(kind: Kind, payload: Payload) -> u32
    ensures { result ≡ joined kind payload.bits }
{
    u32::from(kind) * (1 << 28) + payload.bits
}

// Whether a number is a page's width or height.
pub(crate) fn is_side(length: u16) -> bool
    ensures { result ≡ is_side length }
{
    (SHORTEST_SIDE..=LONGEST_SIDE).contains(&length)
}

// Whether a number is a count of quarter turns.
pub(crate) fn is_turn(quarters: u8) -> bool
    ensures { result ≡ is_turn quarters }
{
    quarters <= MOST_QUARTERS
}

// Whether a number is a size of text.
pub(crate) fn is_size(size: u8) -> bool
    ensures { result ≡ is_size size }
{
    (1..=LARGEST_SIZE).contains(&size)
}

// Whether a byte is a code to show.
pub(crate) fn is_code(byte: u8) -> bool
    ensures { result ≡ is_code byte }
{
    (b' '..=b'~').contains(&byte)
}
