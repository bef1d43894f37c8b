// Every kind of word at both ends of each range and just outside, as one table.
use crate::types::{Codes, ElementType, PaintOperator, Word};
use crate::{decode, encode};
use std::process::Abort;

// Bits, and the word that they say, or the number of the refusal.
const TABLE: [(u32, Result<Word, u8>); 49] = [
    (
        0x0000_C003,
        Ok(Word::Page {
            width: 3,
            height: 3,
        }),
    ),
    (
        0x0E10_3840,
        Ok(Word::Page {
            width: 14_400,
            height: 14_400,
        }),
    ),
    (0x0000_8003, Err(11)),
    (0x0000_C002, Err(11)),
    (0x0E10_4003, Err(11)),
    (0x0000_F841, Err(11)),
    (0x1000_0000, Ok(Word::Close)),
    (0x1000_0001, Err(11)),
    (
        0x2000_0000,
        Ok(Word::Element {
            parent: 0,
            role: ElementType::Document,
        }),
    ),
    (
        0x2FFF_C009,
        Ok(Word::Element {
            parent: 16_383,
            role: ElementType::Caption,
        }),
    ),
    (0x2000_000A, Err(11)),
    (0x3000_0000, Ok(Word::Mark { element: 0 })),
    (
        0x3FFF_FFFF,
        Ok(Word::Mark {
            element: 268_435_455,
        }),
    ),
    (0x4000_0000, Ok(Word::Save)),
    (0x4000_0001, Err(11)),
    (0x57FF_E000, Ok(Word::Origin { a: 8191, b: -8192 })),
    (0x5800_1FFF, Ok(Word::Origin { a: -8192, b: 8191 })),
    (0x6000_0000, Ok(Word::Turn { quarters: 0 })),
    (0x6000_0003, Ok(Word::Turn { quarters: 3 })),
    (0x6000_0004, Err(11)),
    (0x77FF_E000, Ok(Word::Pen { a: 8191, b: -8192 })),
    (0x7800_1FFF, Ok(Word::Pen { a: -8192, b: 8191 })),
    (0x87FF_E000, Ok(Word::Line { a: 8191, b: -8192 })),
    (0x8800_1FFF, Ok(Word::Line { a: -8192, b: 8191 })),
    (
        0x9000_0000,
        Ok(Word::Paint {
            operator: PaintOperator::Stroke,
        }),
    ),
    (
        0x9000_0003,
        Ok(Word::Paint {
            operator: PaintOperator::End,
        }),
    ),
    (0x9000_0004, Err(11)),
    (0xA000_0000, Err(11)),
    (0xA000_0001, Ok(Word::Text { size: 1 })),
    (0xA000_0090, Ok(Word::Text { size: 144 })),
    (0xA000_0091, Err(11)),
    (0xB7FF_E000, Ok(Word::Place { a: 8191, b: -8192 })),
    (0xB800_1FFF, Ok(Word::Place { a: -8192, b: 8191 })),
    (0xC020_0000, Err(11)),
    (0xC11F_0000, Err(11)),
    (
        0xC120_0000,
        Ok(Word::Show {
            codes: Codes::One(32),
        }),
    ),
    (0xC120_0001, Err(11)),
    (
        0xC17E_0000,
        Ok(Word::Show {
            codes: Codes::One(126),
        }),
    ),
    (0xC17F_0000, Err(11)),
    (
        0xC220_7E00,
        Ok(Word::Show {
            codes: Codes::Two(32, 126),
        }),
    ),
    (
        0xC27E_2000,
        Ok(Word::Show {
            codes: Codes::Two(126, 32),
        }),
    ),
    (0xC27E_7F00, Err(11)),
    (0xC27E_2001, Err(11)),
    (
        0xC320_7E20,
        Ok(Word::Show {
            codes: Codes::Three(32, 126, 32),
        }),
    ),
    (
        0xC37E_207E,
        Ok(Word::Show {
            codes: Codes::Three(126, 32, 126),
        }),
    ),
    (0xC320_7E1F, Err(11)),
    (0xC420_2020, Err(11)),
    (0xD000_0000, Err(10)),
    (0xFFFF_FFFF, Err(10)),
];

// Each row's bits are read as its word, and the word is written as those bits; or they are refused
// by its number.
fn rows_hold(rt: &impl Abort, rows: &[(u32, Result<Word, u8>)]) {
    for (bits, wanted) in rows {
        assert!(rt; decode(*bits).map_err(u8::from) == *wanted);
        if let Ok(word) = *wanted {
            assert!(rt; encode(word) == Some(*bits));
        }
    }
}

#[test]
fn ranges_have_these_ends(rt: HostRuntime) {
    rows_hold(&rt, &TABLE);
}
