// Places, and what axes and a line of text make of them.
ghost use Rattle.std.specs.Prelude.{◌≡◌, ◌^◌, ◌≤◌, ◌&&◌, pos, ◌+ℤ◌, ◌*ℤ◌, unsigned_abs};
ghost use Rattle.machine.specs.Axes.{axes_inside, rotated_x, rotated_y, shifted, within};
ghost use Rattle.machine.specs.Refusals.{allowed};
ghost use Rattle.machine.specs.State.{line_inside, placed};
ghost use Rattle.machine.specs.declared.refusals.Refusal.TheVariants.{Outside};

use crate::refusals::Refusal;
use crate::types::{Axes, TextLine};

// A place. It is so near to the origin that it can be turned and moved.
#[derive(Clone, Copy, PartialEq, Eq, Debug)]
pub(crate) struct Place {
    x: i64,
    y: i64,
    ghost x_near: { unsigned_abs x ≤ 2 ^ 40 },
    ghost y_near: { unsigned_abs y ≤ 2 ^ 40 },
}

impl Place {
    // The place (x, y), in points.
    fn in_points(x: i32, y: i32) -> Place
        ensures x { result.x ≡ x }
        ensures y { result.y ≡ y }
    {
        Place {
            x: i64::from(x),
            y: i64::from(y),
        }
    }

    // The place (x, y) of points and so much further along, in tenths of a point.
    pub(crate) fn in_tenths(x: i32, y: i32, further: u32) -> Place
        ensures x { result.x ≡ pos 10 *ℤ x +ℤ pos further }
        ensures y { result.y ≡ pos 10 *ℤ y }
    {
        Place {
            x: 10 * i64::from(x) + i64::from(further),
            y: 10 * i64::from(y),
        }
    }

    // The place after some quarter turns.
    fn turned(self, turn: u8) -> Place
        ensures x { result.x ≡ rotated_x turn self.x self.y }
        ensures y { result.y ≡ rotated_y turn self.x self.y }
    {
        let Place { x, y } = self;
        match turn % 4 {
            0 => Place { x, y },
            1 => Place { x: -y, y: x },
            2 => Place { x: -x, y: -y },
            _ => Place { x: y, y: -x },
        }
    }

    // Where the place stands on a page, in tenths of a point, if it is told in tenths along these axes.
    pub(crate) fn on_page(self, axes: Axes) -> (i64, i64)
        ensures x { result.0 ≡ pos 10 *ℤ axes.x +ℤ rotated_x axes.turn self.x self.y }
        ensures y { result.1 ≡ pos 10 *ℤ axes.y +ℤ rotated_y axes.turn self.x self.y }
    {
        let Place { x, y } = self.turned(axes.turn);
        (10 * i64::from(axes.x) + x, 10 * i64::from(axes.y) + y)
    }

    // The numbers x and y with the place added, if both are then within ±14,400.
    fn added_to(self, x: i32, y: i32) -> Result<(i32, i32), Refusal>
        ensures { result ≡ allowed (within (x +ℤ self.x) && within (y +ℤ self.y)) Outside (x +ℤ self.x, y +ℤ self.y) }
    {
        let x = narrow(i64::from(x) + self.x)?;
        let y = narrow(i64::from(y) + self.y)?;
        Ok((x, y))
    }
}

// How far from 0 an offset and the start of a line of text may be, in points.
const FARTHEST: i64 = 14_400;

// A number, if it is within ±14,400.
fn narrow(z: i64) -> Result<i32, Refusal>
    ensures { result ≡ allowed (within z) Outside z }
{
    if (-FARTHEST..=FARTHEST).contains(&z) {
        Ok(z as i32)
    } else {
        Err(Refusal::Outside)
    }
}

impl Axes {
    // The axes with the offset moved by (a, b), as they are turned, if it is then within its range.
    pub(crate) fn shifted(self, a: i32, b: i32) -> Result<Axes, Refusal>
        ensures { result ≡ allowed (axes_inside (shifted self a b)) Outside (shifted self a b) }
    {
        let place = Place::in_points(a, b).turned(self.turn);
        let (x, y) = place.added_to(self.x, self.y)?;
        Ok(Axes { x, y, ..self })
    }
}

impl TextLine {
    // The line with its start moved by (a, b), and no advance, if the start is then within its range.
    pub(crate) fn placed(self, a: i32, b: i32) -> Result<TextLine, Refusal>
        ensures { result ≡ allowed (line_inside (placed self a b)) Outside (placed self a b) }
    {
        let (x, y) = Place::in_points(a, b).added_to(self.x, self.y)?;
        Ok(TextLine {
            x,
            y,
            advance: 0,
            ..self
        })
    }
}
