// Where a byte of a text stands, for whoever mends the text.
ghost use Rattle.std.specs.Prelude.{◌≡◌};
ghost use Rattle.script.specs.Lines.{position_of};

// A line and a column, both from 1. A column counts bytes.
#[derive(Clone, Copy, PartialEq, Eq, Debug)]
pub struct Position {
    pub line: usize,
    pub column: usize,
}

impl Position {
    // Where the byte at an offset stands; past the text's end, where the end stands.
    pub fn of(text: &[u8], at: usize) -> Position
        ensures { result ≡ position_of text.now at }
    {
        let before = &text[..at.min(text.len())];
        let in_line = before
            .iter()
            .rev()
            .take_while(|byte| **byte != b'\n')
            .count();
        // Up to the last line end, behind which there is none. No `filter` and `count`: they branch at each byte.
        let line_ends: usize = before[..before.len() - in_line]
            .iter()
            .map(|byte| usize::from(*byte == b'\n'))
            .sum();
        Position {
            line: 1 + line_ends,
            column: 1 + in_line,
        }
    }
}
