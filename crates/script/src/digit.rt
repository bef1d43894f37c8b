// Hexadecimal digits: the value of one, and the eight that write a word.
ghost use Rattle.std.specs.Prelude.{◌≡◌, ◌/◌, ◌%◌, ◌^◌, ◌<◌};
ghost use Rattle.script.specs.Digits.{hex_value, hex_digit, hex_of};
ghost use Rattle.script.specs.Laws.{WrittenIsRead};

// The value of a hexadecimal digit of either case.
pub fn hex_value(byte: u8) -> Option<u8>
    ensures { result ≡ hex_value byte }
{
    let digit = char::from(byte).to_digit(16)?;
    Some(digit as u8)
}

// The upper-case digit of a value below sixteen.
// Not by `char::from_digit`: that gives a small letter, as a char, if any, so it is no plainer.
fn hex_digit(value: u8) -> u8
    requires { value < 16 }
    ensures { result ≡ hex_digit value }
{
    if value < 10 {
        b'0' + value
    } else {
        b'A' - 10 + value
    }
}

// The digit of the four bits that stand so far from a word's low end.
fn digit_at(word: u32, shift: u32) -> u8
    requires { shift < 32 }
    ensures { result ≡ hex_digit (word / 2 ^ shift % 16) }
{
    hex_digit(((word >> shift) % 16) as u8)
}

// A word as eight upper-case digits, the most significant first.
// Not by `{:08X}`: that writes to a formatter, and these are bytes for any use, in no memory but their own.
#[tactic(auto, using(crate::proofs::Lawful::written_is_read))]
pub fn hex(word: u32) -> [u8; 8]
    ensures digits { result ≡ hex_of word }
    ensures read_back { WrittenIsRead }
{
    [28, 24, 20, 16, 12, 8, 4, 0].map(|shift| digit_at(word, shift))
}
