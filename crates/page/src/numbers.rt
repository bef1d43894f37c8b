// The numbers, names and letters of kinds, types, operators, codes and refusals.
ghost use Rattle.page.specs.declared.types.Refusal.{Refusal};
ghost use Rattle.page.specs.Numbers.{IsCaseAt, count_of, kind_at, kind_number, letter_of, name_of, number_of, operator_at, operator_number, type_at, type_number, word_kind};
ghost use Rattle.std.specs.Prelude.{◌≡◌, Some, slice_get};

use crate::types::{Codes, ElementType, Kind, PaintOperator, Refusal, Word};

impl TryFrom<u32> for Kind {
    type Error = Refusal;

    ghost try_from_gives = { IsCaseAt kind_at kind_number Refusal.Kind };

    // The kind of this number.
    fn try_from(number: u32) -> Result<Kind, Refusal> {
        Kind::ALL.get(number as usize).copied().ok_or(Refusal::Kind)
    }
}

impl From<Kind> for u32 {
    ghost from_gives = { λ kind number. number ≡ kind_number kind };

    // The kind's number in a word.
    fn from(kind: Kind) -> u32 {
        kind as u32
    }
}

impl Word {
    // What the word is about. Each kind stands in the list of all at its number.
    pub fn kind(self) -> Kind
        ensures value { result ≡ word_kind self }
        ensures listed { slice_get Kind.ALL (kind_number result) ≡ Some result }
    {
        match self {
            Word::Page { .. } => Kind::Page,
            Word::Close => Kind::Close,
            Word::Element { .. } => Kind::Element,
            Word::Mark { .. } => Kind::Mark,
            Word::Save => Kind::Save,
            Word::Origin { .. } => Kind::Origin,
            Word::Turn { .. } => Kind::Turn,
            Word::Pen { .. } => Kind::Pen,
            Word::Line { .. } => Kind::Line,
            Word::Paint { .. } => Kind::Paint,
            Word::Text { .. } => Kind::Text,
            Word::Place { .. } => Kind::Place,
            Word::Show { .. } => Kind::Show,
        }
    }
}

impl TryFrom<u16> for ElementType {
    type Error = Refusal;

    ghost try_from_gives = { IsCaseAt type_at type_number Refusal.Payload };

    // The type of this number. Unlike the kinds, the types stand in no list that could be read.
    fn try_from(number: u16) -> Result<ElementType, Refusal> {
        match number {
            0 => Ok(ElementType::Document),
            1 => Ok(ElementType::Part),
            2 => Ok(ElementType::Sect),
            3 => Ok(ElementType::P),
            4 => Ok(ElementType::H1),
            5 => Ok(ElementType::H2),
            6 => Ok(ElementType::L),
            7 => Ok(ElementType::LI),
            8 => Ok(ElementType::Figure),
            9 => Ok(ElementType::Caption),
            _ => Err(Refusal::Payload),
        }
    }
}

impl From<ElementType> for u16 {
    ghost from_gives = { λ role number. number ≡ type_number role };

    // The type's number in a word.
    fn from(role: ElementType) -> u16 {
        role as u16
    }
}

impl ElementType {
    // The type's name in a file. Printing goes by it; a file is made of its bytes, with no formatter.
    pub fn name(self) -> &'static str
        ensures { result.now ≡ name_of self }
    {
        match self {
            ElementType::Document => "Document",
            ElementType::Part => "Part",
            ElementType::Sect => "Sect",
            ElementType::P => "P",
            ElementType::H1 => "H1",
            ElementType::H2 => "H2",
            ElementType::L => "L",
            ElementType::LI => "LI",
            ElementType::Figure => "Figure",
            ElementType::Caption => "Caption",
        }
    }
}

impl TryFrom<u32> for PaintOperator {
    type Error = Refusal;

    ghost try_from_gives = { IsCaseAt operator_at operator_number Refusal.Payload };

    // The operator of this number. As the types, the operators stand in no list.
    fn try_from(number: u32) -> Result<PaintOperator, Refusal> {
        match number {
            0 => Ok(PaintOperator::Stroke),
            1 => Ok(PaintOperator::CloseAndStroke),
            2 => Ok(PaintOperator::Fill),
            3 => Ok(PaintOperator::End),
            _ => Err(Refusal::Payload),
        }
    }
}

impl From<PaintOperator> for u32 {
    ghost from_gives = { λ operator number. number ≡ operator_number operator };

    // The operator's number in a word.
    fn from(operator: PaintOperator) -> u32 {
        operator as u32
    }
}

impl PaintOperator {
    // The letter that stands for the operator in a page's contents; its number is what `From` gives.
    pub fn letter(self) -> u8
        ensures { result ≡ letter_of self }
    {
        match self {
            PaintOperator::Stroke => b'S',
            PaintOperator::CloseAndStroke => b's',
            PaintOperator::Fill => b'f',
            PaintOperator::End => b'n',
        }
    }
}

impl Codes {
    // How many codes there are.
    pub fn count(self) -> u32
        ensures { result ≡ count_of self }
    {
        match self {
            Codes::One(_) => 1,
            Codes::Two(_, _) => 2,
            Codes::Three(_, _, _) => 3,
        }
    }
}

impl From<Refusal> for u8 {
    ghost from_gives = { λ refusal number. number ≡ number_of refusal };

    // The refusal's number.
    fn from(refusal: Refusal) -> u8 {
        refusal as u8
    }
}
