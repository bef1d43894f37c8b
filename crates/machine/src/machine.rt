// The machine: its numbers, and the methods that change them.
ghost use Rattle.std.specs.Prelude.{◌≡◌, ◌*◌, ◌≤◌, true, is_ok, OnOk, if◌then◌else◌, nat_lt};
ghost use Rattle.machine.specs.Axes.{axes_inside, shifted};
ghost use Rattle.machine.specs.Laws.{EvenlySpaced, Multiplied, shift_by, turn_by};
ghost use Rattle.machine.specs.Refusals.{allowed};
ghost use Rattle.machine.specs.State.{Does, IfTaken, can_draw, glyph_at, glyph_set, line_inside, most_drawn, most_marks, most_pages, no_numbers, one_drawn, placed, point_at, with_axes};
ghost use Rattle.machine.specs.declared.refusals.Refusal.TheVariants.{Limit, Outside};

use crate::drawing::{glyph_at, point_at};
use crate::refusals::Refusal;
use crate::types::{Axes, Drawn, Letter, Numbers, Step, TextLine};
use limits::one_more;

mod limits;

// The most pages.
const MOST_PAGES: u32 = 64;

// The most marks that belong to an element.
const MOST_MARKS: u32 = 1024;

// The most glyphs and points.
const MOST_DRAWN: u32 = 2048;

// The machine. Its counts keep their limit, and no glyph is wider than 6 × 255 tenths, so the advance does not overflow.
// Ghost fields and no model: each fact is known of every machine, wherever one is held, and what holds a machine may be `Copy`.
#[derive(Clone, Copy, PartialEq, Eq, Debug)]
pub struct Machine {
    numbers: Numbers,
    ghost counted: { numbers.counts.drawn ≤ most_drawn },
    ghost advances: { numbers.line.advance ≤ 1530 * numbers.counts.drawn },
}

// By hand, since it cannot be derived beside ghost fields.
impl Default for Machine {
    ghost is_default = { λ machine. machine.numbers ≡ no_numbers };

    fn default() -> Machine {
        Machine {
            numbers: Numbers::default(),
        }
    }
}

impl Machine {
    // A machine before its first page.
    pub fn new() -> Machine
        ensures { result.numbers ≡ no_numbers }
    {
        Machine::default()
    }

    // The axes, as a save finds them.
    pub fn axes(&self) -> Axes
        ensures { result ≡ self.now.numbers.axes }
    {
        self.numbers.axes
    }

    // Brings back axes that a save found.
    pub fn restore(&mut self, axes: Axes)
        ensures { self.new.numbers ≡ with_axes self.old.numbers axes }
    {
        self.numbers.axes = axes;
    }

    // Starts a page, if there is one left.
    pub fn start_page(&mut self) -> Result<(), Refusal>
        ensures answer { result ≡ allowed (nat_lt self.old.numbers.counts.pages most_pages) Limit tt }
        ensures after { Does Step.Page (is_ok result) self.old.numbers self.new.numbers }
    {
        self.numbers.counts.pages = one_more(self.numbers.counts.pages, MOST_PAGES)?;
        self.numbers.axes = Axes::default();
        Ok(())
    }

    // Starts a mark, if it is an artifact or there is one left.
    pub fn start_mark(&mut self, owned: bool) -> Result<(), Refusal>
        ensures answer { result ≡ allowed (if owned then nat_lt self.old.numbers.counts.marks most_marks else true) Limit tt }
        ensures after { Does (Step.Mark owned) (is_ok result) self.old.numbers self.new.numbers }
    {
        if owned {
            self.numbers.counts.marks = one_more(self.numbers.counts.marks, MOST_MARKS)?;
        }
        Ok(())
    }

    // Moves the origin, if the offset is then within its range.
    pub fn shift(&mut self, a: i32, b: i32) -> Result<(), Refusal>
        ensures answer { result ≡ allowed (axes_inside (shifted self.old.numbers.axes a b)) Outside tt }
        ensures after { Does (Step.Origin a b) (is_ok result) self.old.numbers self.new.numbers }
        ensures matrix { OnOk result (Multiplied (shift_by a b) self.old.numbers.axes self.new.numbers.axes) }
    {
        self.numbers.axes = self.numbers.axes.shifted(a, b)?;
        Ok(())
    }

    // Turns the axes by quarters of a whole turn.
    pub fn turn_by(&mut self, quarters: u8)
        ensures after { Does (Step.Turn quarters) true self.old.numbers self.new.numbers }
        ensures matrix { Multiplied (turn_by quarters) self.old.numbers.axes self.new.numbers.axes }
    {
        self.numbers.axes.turn = (self.numbers.axes.turn % 4 + quarters % 4) % 4;
    }

    // Starts text of this size.
    pub fn start_text(&mut self, size: u8)
        ensures after { Does (Step.Text size) true self.old.numbers self.new.numbers }
        ensures spaced { EvenlySpaced size self.new.numbers }
    {
        self.numbers.line = TextLine {
            size,
            ..TextLine::default()
        };
    }

    // Moves the start of the line of text, if it is then within its range.
    pub fn place(&mut self, a: i32, b: i32) -> Result<(), Refusal>
        ensures answer { result ≡ allowed (line_inside (placed self.old.numbers.line a b)) Outside tt }
        ensures after { Does (Step.Place a b) (is_ok result) self.old.numbers self.new.numbers }
    {
        self.numbers.line = self.numbers.line.placed(a, b)?;
        Ok(())
    }

    // Sets one glyph and advances, if there is one left.
    pub fn glyph(&mut self, code: u8) -> Result<Drawn, Refusal>
        ensures answer { result ≡ allowed (can_draw self.old.numbers) Limit (glyph_at self.old.numbers code) }
        ensures after { IfTaken (is_ok result) glyph_set self.old.numbers self.new.numbers }
    {
        let drawn = glyph_at(self.numbers, code);
        self.count_drawn()?;
        self.numbers.line.advance += 6 * u32::from(self.numbers.line.size);
        Ok(drawn)
    }

    // Sets the point that a path goes on from, if there is one left.
    // This and `line_to` differ in a constant: the format has two steps, and `point` does both.
    pub fn pen_to(&mut self, a: i32, b: i32) -> Result<Drawn, Refusal>
        ensures answer { result ≡ allowed (can_draw self.old.numbers) Limit (point_at Letter.Move self.old.numbers.axes a b) }
        ensures after { Does (Step.Pen a b) (is_ok result) self.old.numbers self.new.numbers }
    {
        self.point(Letter::Move, a, b)
    }

    // Sets the point that a line goes to, if there is one left.
    pub fn line_to(&mut self, a: i32, b: i32) -> Result<Drawn, Refusal>
        ensures answer { result ≡ allowed (can_draw self.old.numbers) Limit (point_at Letter.Line self.old.numbers.axes a b) }
        ensures after { Does (Step.Line a b) (is_ok result) self.old.numbers self.new.numbers }
    {
        self.point(Letter::Line, a, b)
    }

    // Sets a point of a path, if there is one left.
    fn point(&mut self, shape: Letter, a: i32, b: i32) -> Result<Drawn, Refusal>
        ensures answer { result ≡ allowed (can_draw self.old.numbers) Limit (point_at shape self.old.numbers.axes a b) }
        ensures after { IfTaken (is_ok result) one_drawn self.old.numbers self.new.numbers }
    {
        self.count_drawn()?;
        Ok(point_at(self.numbers.axes, shape, a, b))
    }

    // Counts one glyph or point more, if there is one left.
    fn count_drawn(&mut self) -> Result<(), Refusal>
        ensures answer { result ≡ allowed (can_draw self.old.numbers) Limit tt }
        ensures after { IfTaken (is_ok result) one_drawn self.old.numbers self.new.numbers }
    {
        self.numbers.counts.drawn = one_more(self.numbers.counts.drawn, MOST_DRAWN)?;
        Ok(())
    }
}
