// Reading the text of a page script into 32-bit words, and writing a word as hexadecimal text.
//
// A script is hexadecimal words, with or without 0x, in digits of either case, one to eight of them,
// separated by white space. The sign # opens a comment that runs to the end of the line, also right
// behind a word.
#![tactic(auto)]

pub mod digit;
pub mod load;
pub mod place;
pub mod scan;
#[cfg(test)]
mod tests;
pub mod token;
