// What a reading is made of.
use machine::Letter;

// A thing that was drawn inside the mark of an element. Its place (x, y) is in tenths of a point; `element` is the
// element's number in reading order, from 1.
// Every letter has all the fields, a paint's operator is a number, and no `Drawn` is inside: the project fixes this record,
// since callers read it in a tray that they lent, with zeros after the last item.
#[derive(Clone, Copy, PartialEq, Eq, Debug)]
pub struct Item {
    pub letter: Letter,
    pub page: u32,
    pub x: i64,
    pub y: i64,
    pub turn: u8,
    pub size: u8,
    pub code: u8,
    pub element: u32,
}
