// The types of the page machine: what is open, a step, the machine's numbers, and what is drawn.
use page::{Codes, PaintOperator};

// Where the axes stand: quarters of a whole turn, and the offset in points. The quarters are a count, which is added to.
#[derive(Clone, Copy, PartialEq, Eq, Debug, Default)]
pub struct Axes {
    pub turn: u8,
    pub x: i32,
    pub y: i32,
}

// A thing that is open on a page.
#[derive(Clone, Copy, PartialEq, Eq, Debug)]
pub enum Open {
    Page,
    // A save, with the axes that it found.
    Save { axes: Axes },
    // A mark; it is owned if it belongs to an element, and else an artifact.
    Mark { owned: bool },
    Text,
    Path,
}

// A step of the machine. Lengths and places are in points.
// Not `page`'s `Word`: a step has no page size, no element, and of a mark only whether it is owned; what a file does is told
// in steps too.
// A place stays two numbers here and in calls: the definitions and laws speak of two (`Step.Origin a b`, `shifted axes a b`),
// as a word does, and a struct would be taken apart at every one.
#[derive(Clone, Copy, PartialEq, Eq, Debug)]
pub enum Step {
    Page,
    Close,
    Mark { owned: bool },
    Save,
    Origin { a: i32, b: i32 },
    Turn { quarters: u8 },
    Pen { a: i32, b: i32 },
    Line { a: i32, b: i32 },
    Paint { operator: PaintOperator },
    Text { size: u8 },
    Place { a: i32, b: i32 },
    Show { codes: Codes },
}

// The line of text: its start in points, how far glyphs have come in tenths of a point, and the size of text.
#[derive(Clone, Copy, PartialEq, Eq, Debug, Default)]
pub struct TextLine {
    pub(crate) x: i32,
    pub(crate) y: i32,
    pub(crate) advance: u32,
    pub(crate) size: u8,
}

// How many glyphs and points, marks that belong to an element, and pages there were.
#[derive(Clone, Copy, PartialEq, Eq, Debug, Default)]
pub struct Counts {
    pub(crate) drawn: u32,
    pub(crate) marks: u32,
    pub(crate) pages: u32,
}

// The numbers of the machine.
#[derive(Clone, Copy, PartialEq, Eq, Debug, Default)]
pub struct Numbers {
    pub(crate) axes: Axes,
    pub(crate) line: TextLine,
    pub(crate) counts: Counts,
}

// What a drawn thing is: a glyph, a point that a path goes on from, the end of a line, or the end of a path.
#[derive(Clone, Copy, PartialEq, Eq, Debug)]
pub enum Letter {
    Glyph,
    Move,
    Line,
    Paint,
}

// A drawn thing. Its place is in tenths of a point.
// Every letter has all the fields, and a paint's operator is a number: they are those of an item, a record that the project
// fixes, since callers read it in a tray that they lent.
#[derive(Clone, Copy, PartialEq, Eq, Debug)]
pub struct Drawn {
    pub letter: Letter,
    pub x: i64,
    pub y: i64,
    pub turn: u8,
    pub size: u8,
    pub code: u8,
}
