// What kinds, types, codes, words and refusals are in print.
ghost use Rattle.page.specs.Numbers.{kind_name, name_of, reason_of};
ghost use Rattle.page.specs.Printed.{codes_text, word_text};
ghost use Rattle.std.specs.Prelude.{Some};

use crate::types::{Codes, ElementType, Kind, Refusal, Word};
use std::error::Error;
use std::fmt;

// A kind by its name in plain words.
impl fmt::Display for Kind {
    ghost output = { λ kind. Some (kind_name kind) };

    fn fmt<W: fmt::Write>(&self, f: &mut fmt::Formatter<W>) -> fmt::Result {
        f.write_str(match self {
            Kind::Page => "page",
            Kind::Close => "close",
            Kind::Element => "element",
            Kind::Mark => "mark",
            Kind::Save => "save",
            Kind::Origin => "origin",
            Kind::Turn => "turn",
            Kind::Pen => "pen",
            Kind::Line => "line",
            Kind::Paint => "paint",
            Kind::Text => "text",
            Kind::Place => "place",
            Kind::Show => "show",
        })
    }
}

// A type by its name in a file.
impl fmt::Display for ElementType {
    ghost output = { λ role. Some (name_of role) };

    fn fmt<W: fmt::Write>(&self, f: &mut fmt::Formatter<W>) -> fmt::Result {
        f.write_str(self.name())
    }
}

// The codes as text.
impl fmt::Display for Codes {
    ghost output = { λ codes. Some (codes_text codes) };

    fn fmt<W: fmt::Write>(&self, f: &mut fmt::Formatter<W>) -> fmt::Result {
        match *self {
            Codes::One(x) => write!(f, "{}", x as char),
            Codes::Two(x, y) => write!(f, "{}{}", x as char, y as char),
            Codes::Three(x, y, z) => write!(f, "{}{}{}", x as char, y as char, z as char),
        }
    }
}

// The kind of the word, and its fields.
impl fmt::Display for Word {
    ghost output = { λ word. Some (word_text word) };

    fn fmt<W: fmt::Write>(&self, f: &mut fmt::Formatter<W>) -> fmt::Result {
        let kind = self.kind();
        match *self {
            Word::Page { width, height } => write!(f, "{kind} width {width} height {height}"),
            Word::Close | Word::Save => write!(f, "{kind}"),
            Word::Element { parent, role } => write!(f, "{kind} parent {parent} type {role}"),
            Word::Mark { element: 0 } => write!(f, "{kind} artifact"),
            Word::Mark { element } => write!(f, "{kind} element {element}"),
            Word::Origin { a, b }
            | Word::Pen { a, b }
            | Word::Line { a, b }
            | Word::Place { a, b } => write!(f, "{kind} {a} {b}"),
            Word::Turn { quarters } => write!(f, "{kind} {quarters}"),
            Word::Paint { operator } => write!(f, "{kind} {}", operator.letter() as char),
            Word::Text { size } => write!(f, "{kind} size {size}"),
            Word::Show { codes } => write!(f, "{kind} {codes}"),
        }
    }
}

// Why a word is refused.
impl fmt::Display for Refusal {
    ghost output = { λ refusal. Some (reason_of refusal) };

    fn fmt<W: fmt::Write>(&self, f: &mut fmt::Formatter<W>) -> fmt::Result {
        f.write_str(match self {
            Refusal::Kind => "no such kind",
            Refusal::Payload => "payload outside its range",
        })
    }
}

impl Error for Refusal {}
