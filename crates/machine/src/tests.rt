// Where glyphs stand after an origin, a turn and a place, and what opens in a mark, by hand.
use crate::{Machine, Open, Refusal, Stack, Step};
use std::process::Abort;
use std::test::Fail;

// Sets the glyph of a code, and checks its place in tenths, its turn and its size.
fn glyph_stands(
    rt: &impl Abort,
    machine: &mut Machine,
    code: u8,
    place: (i64, i64),
) -> Result<(), Fail> {
    let drawn = machine.glyph(code)?;
    assert!(rt; (drawn.x, drawn.y) == place);
    assert!(rt; (drawn.turn, drawn.size, drawn.code) == (1, 10, code));
    assert!(rt; u8::from(drawn.letter) == b'G');
    Ok(())
}

#[test]
fn turned_glyphs_go_up(rt: HostRuntime) -> Result<(), Fail> {
    let mut machine = Machine::new();
    machine.start_page()?;
    machine.shift(100, 0)?;
    machine.turn_by(1);
    machine.start_text(10);
    machine.place(10, 0)?;
    glyph_stands(&rt, &mut machine, b'A', (1000, 100))?;
    glyph_stands(&rt, &mut machine, b'B', (1000, 160))?;
    assert!(rt; machine.place(14_391, 0) == Err(Refusal::Outside));
    Ok(())
}

#[test]
fn text_opens_in_a_mark_and_a_page_does_not(rt: HostRuntime) {
    let things = [Open::Page, Open::Mark { owned: true }];
    let stack = Stack::new(&things);
    assert!(rt; stack.is_taken(Step::Text { size: 10 }));
    assert!(rt; !stack.is_taken(Step::Page));
}
