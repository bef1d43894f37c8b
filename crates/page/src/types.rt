// The types of a page script: a word, the values that its fields hold, and why a word is refused.

// What a word is about: its number stands in the top four bits.
#[derive(Clone, Copy, PartialEq, Eq, PartialOrd, Ord, Debug)]
pub enum Kind {
    Page,
    Close,
    Element,
    Mark,
    Save,
    Origin,
    Turn,
    Pen,
    Line,
    Paint,
    Text,
    Place,
    Show,
}

impl Kind {
    // Every kind, in the order of their numbers.
    pub const ALL: [Kind; 13] = [
        Kind::Page,
        Kind::Close,
        Kind::Element,
        Kind::Mark,
        Kind::Save,
        Kind::Origin,
        Kind::Turn,
        Kind::Pen,
        Kind::Line,
        Kind::Paint,
        Kind::Text,
        Kind::Place,
        Kind::Show,
    ];
}

// The type of a structure element. The names are those of the file format.
#[derive(Clone, Copy, PartialEq, Eq, Debug)]
pub enum ElementType {
    Document,
    Part,
    Sect,
    P,
    H1,
    H2,
    L,
    LI,
    Figure,
    Caption,
}

// What ends a path: it is stroked, closed and stroked, filled, or only ended.
#[derive(Clone, Copy, PartialEq, Eq, Debug)]
pub enum PaintOperator {
    Stroke,
    CloseAndStroke,
    Fill,
    End,
}

// The codes that a word shows: one to three.
#[derive(Clone, Copy, PartialEq, Eq, Debug)]
pub enum Codes {
    One(u8),
    Two(u8, u8),
    Three(u8, u8, u8),
}

// A word of a page script. Lengths and places are in points.
#[derive(Clone, Copy, PartialEq, Eq, Debug)]
pub enum Word {
    // Opens a page of this size.
    Page { width: u16, height: u16 },
    // Closes what was opened last.
    Close,
    // Adds an element as the last kid of the element `parent`; 0 is the root of the tree.
    // In the format 0 is one of the values of this field and of a mark's, so neither is an Option.
    Element { parent: u16, role: ElementType },
    // Opens a mark: what is drawn in it belongs to this element; 0 makes it an artifact.
    Mark { element: u32 },
    // Opens a save, whose close brings the origin and the turn back.
    Save,
    // Moves the origin.
    Origin { a: i32, b: i32 },
    // Turns the axes by quarters of a whole turn.
    Turn { quarters: u8 },
    // Sets a point from which lines go on.
    Pen { a: i32, b: i32 },
    // Draws a line to a point.
    Line { a: i32, b: i32 },
    // Ends the path.
    Paint { operator: PaintOperator },
    // Opens text of this size.
    Text { size: u8 },
    // Moves the start of the line of text.
    Place { a: i32, b: i32 },
    // Shows these codes.
    Show { codes: Codes },
}

// Why a word is refused, with the refusal's number: there is no such kind, or the payload is
// outside the kind's range.
#[derive(Clone, Copy, PartialEq, Eq, Debug)]
pub enum Refusal {
    Kind = 10,
    Payload = 11,
}
