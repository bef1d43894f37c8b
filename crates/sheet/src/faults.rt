// What a file is refused for.
ghost use Rattle.std.specs.Prelude.{◌≡◌};
ghost use Rattle.sheet.specs.Faults.{fault_number};

// What is wrong with a file.
#[derive(Clone, Copy, PartialEq, Eq, Debug)]
pub enum FaultKind {
    // The header line.
    Header,
    // The tail, the table or the trailer, or an offset past the file.
    Table,
    // An object does not start at its offset.
    Start,
    // Syntax, a key, a value or a reference.
    Syntax,
    // The tree, the pages or the owners.
    Tree,
    // An unknown instruction or operand.
    Unknown,
    // An instruction that is not taken where it stands, an identifier that is repeated, or something left open.
    NotTaken,
    // A limit or a place.
    Limit,
}

// A fault, with the object or entry that it is found in (0 if none) and an offset in the file.
// No `Option`: the project fixes the 0 in what callers are told, and it names the free entry too.
#[derive(Clone, Copy, PartialEq, Eq, Debug)]
pub struct Fault {
    pub kind: FaultKind,
    pub object: u32,
    pub offset: u32,
}

// The number that a fault is known by.
// A table and no discriminants: with those, two cases with one number, as an edit that must fail has them, would not compile.
impl From<FaultKind> for u32 {
    ghost from_gives = { λ kind number. number ≡ fault_number kind };

    fn from(kind: FaultKind) -> u32 {
        match kind {
            FaultKind::Header => 22,
            FaultKind::Table => 23,
            FaultKind::Start => 24,
            FaultKind::Syntax => 25,
            FaultKind::Tree => 26,
            FaultKind::Unknown => 27,
            FaultKind::NotTaken => 28,
            FaultKind::Limit => 29,
        }
    }
}
