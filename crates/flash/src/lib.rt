// A sink over flash: 32-bit words that are lent to it, each of four bytes.
#![tactic(auto)]

ghost use Rattle.std.specs.Prelude.{◌≡◌, ◌+◌, ◌*◌, ◌<◌, ◌≤◌, length, slice_set};
ghost use Rattle.flash.specs.Words.{flat};

use sink::memory::{Layout, Memory};

// Four bytes to a word, the earliest in its top bits.
pub struct Words;

pub type Flash<'a> = Memory<'a, Words>;

// Sets one byte of the words.
#[tactic(auto, using(crate::proofs::Packs::flat_set_at))]
fn set_byte(words: &mut [u32], at: usize, byte: u8)
    requires { at < 4 * length words.old }
    ensures { flat words.new ≡ slice_set (flat words.old) at byte }
{
    let mut bytes = words[at / 4].to_be_bytes();
    bytes[at % 4] = byte;
    words[at / 4] = u32::from_be_bytes(bytes);
}

impl Layout for Words {
    type Cell = u32;

    ghost flat = { flat };

    #[tactic(auto, using(crate::proofs::Packs::length_flat))]
    fn size(words: &[u32]) -> usize {
        4 * words.len()
    }

    #[tactic(auto, using(crate::proofs::Packs::length_flat, std::proofs::lemmas::List::Edits::paste_more))]
    fn write(words: &mut [u32], at: usize, part: &[u8]) {
        let size = Words::size(words);
        if at <= size && part.len() <= size - at {
            for (i, b) in part.iter().enumerate() {
                set_byte(words, at + i, *b);
            }
        }
    }
}
