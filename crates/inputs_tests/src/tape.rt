// Tapes that are right, and the first line of those that are not.
use inputs::tape::{TapeError, read_tape};
use std::test::Fail;

#[test]
fn right_tapes(rt: HostRuntime) -> Result<(), Fail> {
    let cases: [(&str, &[u32]); 7] = [
        ("", &[]),
        ("\n# nothing\n", &[]),
        ("7\n", &[7]),
        ("7\n8", &[7, 8]),
        ("7\r\n8\r\n", &[7, 8]),
        ("# two\n\n  +9 \n\t0004294967295\n", &[9, 4294967295]),
        (" #1\n2", &[2]),
    ];
    for (text, readings) in cases {
        let tape = read_tape(rt.alloc(), text)?;
        assert_eq!(rt; tape.as_slice(), readings, "{text}");
    }
    Ok(())
}

#[test]
fn wrong_tapes(rt: HostRuntime) {
    let cases = [
        ("x", 1),
        ("1\n\n-1\n2", 3),
        ("4294967296", 1),
        ("1\n2 3", 2),
        ("1\n2 # two", 2),
        ("# hexadecimal\r\n0x1\r\n", 2),
        ("1\r2", 1),
        ("+", 1),
    ];
    for (text, line) in cases {
        assert_eq!(rt;
            read_tape(rt.alloc(), text).err(),
            Some(TapeError::Line(line)),
            "{text}"
        );
    }
}
