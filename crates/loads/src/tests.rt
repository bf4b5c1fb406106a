// Texts, and what is read of them.
use crate::{LoadsFault, read_loads};
use std::test::Fail;

#[test]
fn loads(rt: HostRuntime) -> Result<(), Fail> {
    let table: [(&[u8], &[(u32, u32)]); 9] = [
        (b"", &[]),
        (b"\n \n\t\r\n", &[]),
        (b"3 5\n4 9\n", &[(3, 5), (4, 9)]),
        (b"3 5\n4 9", &[(3, 5), (4, 9)]),
        (b"\n3 5\n\n \n4 9\n\n", &[(3, 5), (4, 9)]),
        (b"\t3\t \t5 \r\n4 9\r\n", &[(3, 5), (4, 9)]),
        (b"007 0000000000000005\n", &[(7, 5)]),
        (b"4294967295 0\n", &[(4294967295, 0)]),
        (b"0 4294967295", &[(0, 4294967295)]),
    ];
    for (text, pairs) in table {
        let read = read_loads(rt.alloc(), text)?;
        assert_eq!(rt; read.len(), pairs.len());
        for (load, pair) in read.iter().zip(pairs) {
            assert_eq!(rt; (load.litres, load.fat), *pair);
        }
    }
    Ok(())
}

#[test]
fn malformed(rt: HostRuntime) -> Result<(), Fail> {
    let table: [(&[u8], usize, &[u8]); 11] = [
        (b"3", 1, b"3"),
        (b"3 5 7\n", 1, b"3 5 7"),
        (b"3 x\n", 1, b"3 x"),
        (b"x 3\n", 1, b"x 3"),
        (b"-1 2\n", 1, b"-1 2"),
        (b"+1 2\n", 1, b"+1 2"),
        (b"4294967296 0\n", 1, b"4294967296 0"),
        (b"0 99999999999999999999\n", 1, b"0 99999999999999999999"),
        (b"3 5\n\n 4 \r\n6\n", 3, b" 4 \r"),
        (b"3 5\n4 9.\n", 2, b"4 9."),
        (b"3 5\n4,9", 2, b"4,9"),
    ];
    for (text, number, bytes) in table {
        // The refusal is what the case is about, so that `?` would end it.
        match read_loads(rt.alloc(), text) {
            Err(LoadsFault::Malformed { line, text }) => {
                assert_eq!(rt; line, number);
                assert_eq!(rt; text, bytes);
            }
            Err(LoadsFault::Memory) => return Err(Fail::new("no memory")),
            Ok(read) => return Err(Fail::new(format_args!("read as {read:?}"))),
        }
    }
    Ok(())
}

#[test]
fn printed(rt: HostRuntime) -> Result<(), Fail> {
    let table: [(LoadsFault, &str); 3] = [
        (
            LoadsFault::Malformed {
                line: 3,
                text: b" 4 \r",
            },
            "line 3 is not `litres fat`:  4 \r",
        ),
        (
            LoadsFault::Malformed {
                line: 1,
                text: b"Hello \xF0\x90\x80World",
            },
            "line 1 is not `litres fat`: Hello \u{FFFD}World",
        ),
        (LoadsFault::Memory, "there is no memory left"),
    ];
    for (fault, words) in table {
        let text = fault.to_string(rt.alloc())?;
        assert_eq!(rt; text.as_str(), words);
    }
    Ok(())
}
