// A sink over plain memory: bytes that are lent to it.
ghost use Rattle.std.specs.Prelude.{◌+◌, ◌≤◌};

use crate::memory::{Layout, Memory};

// Bytes as they are.
pub struct Bytes;

pub type Plain<'a> = Memory<'a, Bytes>;

impl Layout for Bytes {
    type Cell = u8;

    ghost flat = { λ bytes. bytes };

    fn size(bytes: &[u8]) -> usize {
        bytes.len()
    }

    fn write(bytes: &mut [u8], at: usize, part: &[u8]) {
        let n = part.len();
        if at <= bytes.len() && n <= bytes.len() - at {
            bytes[at..at + n].copy_from_slice(part);
        }
    }
}
