// Why a sheet is not begun, why a word of its script is refused, and the note that is made of it.
ghost use Rattle.std.specs.Prelude.{◌≡◌};
ghost use Rattle.sheet.specs.Refusals.{begin_number, word_number};

use page::Refusal;

// Why a sheet is not begun.
#[derive(Clone, Copy, PartialEq, Eq, Debug)]
pub enum BeginRefusal {
    // More words are told than a script may have.
    Long,
    // A tray is too short.
    ShortTray,
    // The sink has bytes.
    Begun,
    // The sink has too little room.
    LittleRoom,
}

// Why a word is refused.
#[derive(Clone, Copy, PartialEq, Eq, Debug)]
pub enum WordRefusal {
    // Its 32 bits say no word.
    Unread { why: Refusal },
    // The word is not taken where it stands.
    NotTaken,
    // It names an element that there is not.
    NoElement,
    // A limit would be passed.
    Limit,
    // The offset or the start of the line of text would be outside its range.
    Outside,
    // The room after its bytes would be below the reserve.
    NoRoom,
}

// A refused word: its place in the script, from 0, and the number of the refusal.
// A number and no enum: the project fixes this record, since callers read it in a tray that they lent, with zeros after the
// last note.
#[derive(Clone, Copy, PartialEq, Eq, Debug)]
pub struct Note {
    pub place: u32,
    pub number: u32,
}

// The number that a refusal to begin is known by.
// A table and no discriminants: with those, two cases with one number, as an edit that must fail has them, would not compile.
impl From<BeginRefusal> for u32 {
    ghost from_gives = { λ refusal number. number ≡ begin_number refusal };

    fn from(refusal: BeginRefusal) -> u32 {
        match refusal {
            BeginRefusal::Long => 1,
            BeginRefusal::ShortTray => 2,
            BeginRefusal::Begun => 3,
            BeginRefusal::LittleRoom => 4,
        }
    }
}

// The number that a word's refusal is known by.
impl From<WordRefusal> for u32 {
    ghost from_gives = { λ refusal number. number ≡ word_number refusal };

    fn from(refusal: WordRefusal) -> u32 {
        match refusal {
            WordRefusal::Unread { why } => u32::from(u8::from(why)),
            WordRefusal::NotTaken => 12,
            WordRefusal::NoElement => 13,
            WordRefusal::Limit => 14,
            WordRefusal::Outside => 15,
            WordRefusal::NoRoom => 16,
        }
    }
}
