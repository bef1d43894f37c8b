// The words of a page script: their types, and the 32 bits that stand for each.
#![tactic(auto)]

mod decoding;
mod encoding;
mod fields;
mod numbers;
mod printing;
#[cfg(test)]
mod tests;
mod types;

pub use decoding::decode;
pub use encoding::encode;
pub use types::{Codes, ElementType, Kind, PaintOperator, Refusal, Word};
