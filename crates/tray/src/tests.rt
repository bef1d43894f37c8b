// What trays do on examples.
use super::*;
use crate::offset::Offset;
use std::test::Fail;

// The offset of an object.
fn entry(object: u32, offset: u32) -> Offset {
    Offset { object, offset }
}

#[test]
fn find_gives_the_first_of_two_with_one_key(rt: HostRuntime) -> Result<(), Fail> {
    let mut memory = [entry(0, 0); 3];
    let mut offsets = Tray::new(&mut memory);
    offsets.push(entry(3, 15))?;
    offsets.push(entry(4, 90))?;
    offsets.push(entry(4, 70))?;
    assert_eq!(rt; offsets.find(4), Some(entry(4, 90)));
    assert_eq!(rt; offsets.find(5), None);
    Ok(())
}

#[test]
fn full_tray_refuses_and_pop_gives_back(rt: HostRuntime) -> Result<(), Fail> {
    let mut memory = [9u32; 3];
    let mut tray = Tray::resume(&mut memory, 1);
    tray.push(1)?;
    tray.push(2)?;
    assert_eq!(rt; tray.push(3), Err(Refusal::Full));
    assert_eq!(rt; tray.pop(), Some(2));
    assert_eq!(rt; tray.close(), 2);
    assert_eq!(rt; memory, [9, 1, 2]);
    Ok(())
}

#[test]
fn clear_leaves_zeros(rt: HostRuntime) {
    let mut memory = [entry(7, 15); 2];
    let mut offsets = Tray::resume(&mut memory, 1);
    offsets.clear();
    assert_eq!(rt; offsets.len(), 0);
    assert_eq!(rt; memory, [entry(0, 0); 2]);
}
