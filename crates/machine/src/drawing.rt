// Where glyphs and points stand, in tenths of a point.
ghost use Rattle.std.specs.Prelude.{◌≡◌};
ghost use Rattle.machine.specs.Laws.{GlyphStands, PointStands};
ghost use Rattle.machine.specs.State.{byte_of, glyph_at, paint_of, point_at};
ghost use Rattle.page.specs.Numbers.{operator_number};

use crate::places::Place;
use crate::types::{Axes, Drawn, Letter, Numbers};
use page::PaintOperator;

// The byte that stands for a letter. A table and no discriminants: what `as` makes of a letter stays its place in the list.
impl From<Letter> for u8 {
    ghost from_gives = { λ letter byte. byte ≡ byte_of letter };

    fn from(letter: Letter) -> u8 {
        match letter {
            Letter::Glyph => b'G',
            Letter::Move => b'M',
            Letter::Line => b'L',
            Letter::Paint => b'Z',
        }
    }
}

// The end of a path.
pub fn paint(operator: PaintOperator) -> Drawn
    ensures { result ≡ paint_of (operator_number operator) }
{
    Drawn {
        letter: Letter::Paint,
        x: 0,
        y: 0,
        turn: 0,
        size: 0,
        code: operator as u8,
    }
}

// A point of a path.
pub fn point_at(axes: Axes, shape: Letter, a: i32, b: i32) -> Drawn
    ensures value { result ≡ point_at shape axes a b }
    ensures stands { PointStands axes a b result }
{
    let (x, y) = Place::in_tenths(a, b, 0).on_page(axes);
    Drawn {
        letter: shape,
        x,
        y,
        turn: 0,
        size: 0,
        code: 0,
    }
}

// The next glyph.
pub fn glyph_at(numbers: Numbers, code: u8) -> Drawn
    ensures value { result ≡ glyph_at numbers code }
    ensures stands { GlyphStands numbers result }
{
    let axes = numbers.axes;
    let line = numbers.line;
    let (x, y) = Place::in_tenths(line.x, line.y, line.advance).on_page(axes);
    Drawn {
        letter: Letter::Glyph,
        x,
        y,
        turn: axes.turn,
        size: line.size,
        code,
    }
}
