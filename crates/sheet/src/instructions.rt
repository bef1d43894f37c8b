// The instructions of a page's contents.
use page::{Codes, ElementType, PaintOperator};

// An instruction with its operands. The names in comments are the operators of the file format.
#[derive(Clone, Copy, PartialEq, Eq, Debug)]
pub enum Instruction {
    // q and Q
    Save,
    Restore,
    // cm, with the matrix of an origin or of quarter turns
    Origin { a: i32, b: i32 },
    Turn { quarters: u8 },
    // BT, Tf and ET
    BeginText,
    Font { size: u8 },
    EndText,
    // BDC, BMC and EMC
    Mark { role: ElementType, identifier: u32 },
    Artifact,
    EndMark,
    // m and l
    Move { a: i32, b: i32 },
    Line { a: i32, b: i32 },
    // S, s, f or n
    Paint { operator: PaintOperator },
    // Td and Tj
    Place { a: i32, b: i32 },
    Show { codes: Codes },
}
