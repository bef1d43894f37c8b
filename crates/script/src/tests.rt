// Samples, with the expected values worked out by hand.
use crate::digit::hex;
use crate::load::{ScriptFault, read_script};
use crate::place::Position;
use crate::scan::Fault;
use crate::token::Reason;

// Reads into four words, each 9 before.
fn read(text: &[u8]) -> (Result<usize, ScriptFault>, [u32; 4]) {
    let mut words = [9; 4];
    let count = read_script(text, &mut words);
    (count, words)
}

// A fault at a line and a column.
fn fault(line: usize, column: usize, reason: Reason) -> Result<usize, ScriptFault> {
    Err(ScriptFault::Unreadable(Fault {
        place: Position { line, column },
        reason,
    }))
}

#[test]
fn words_are_read(rt: HostRuntime) {
    assert_eq!(rt;
        read(b"0x20000003 0094C34A # page\n"),
        (Ok(2), [0x2000_0003, 0x0094_c34a, 9, 9])
    );
    assert_eq!(rt;
        read(b"# head\r\n1f\t0XfF#x\r0\x0b\x0cffffffff # end"),
        (Ok(4), [31, 255, 0, 0xffff_ffff])
    );
    assert_eq!(rt; read(b""), (Ok(0), [9, 9, 9, 9]));
}

#[test]
fn faults_have_places(rt: HostRuntime) {
    assert_eq!(rt;
        read(b"1 2\r\n 3 0x4g5 6"),
        (fault(2, 4, Reason::NotHexadecimal), [9, 9, 9, 9])
    );
    assert_eq!(rt;
        read(b"1\n\n0x#"),
        (fault(3, 1, Reason::NoDigit), [9, 9, 9, 9])
    );
    assert_eq!(rt;
        read(b"1 000000012"),
        (fault(1, 3, Reason::TooLong), [9, 9, 9, 9])
    );
    assert_eq!(rt;
        read(b"1 2 3 4 5"),
        (Err(ScriptFault::TooMany(5)), [9, 9, 9, 9])
    );
}

#[test]
fn words_are_written(rt: HostRuntime) {
    assert_eq!(rt; hex(0x0094_c34a), *b"0094C34A");
}
