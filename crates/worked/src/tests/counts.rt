// Counts: what is written is read back, and what is refused.
use algebra::fault::ByteFault;
use algebra::reader::Reader;
use algebra::varint;

// The count that begins at the offset, and how many bytes it takes; the table has both, as they would be seen on the wire.
fn count_at(bytes: &[u8], at: usize) -> Result<(u32, usize), ByteFault> {
    let mut input = Reader::new(bytes, at);
    let count = varint::read(&mut input)?;
    Ok((count, input.at() - at))
}

// Each with how many bytes it takes, and with these between bytes that stay.
const CODES: [(u32, usize, [u8; 9]); 8] = [
    (0, 1, [9, 9, 9, 0x00, 9, 9, 9, 9, 9]),
    (1, 1, [9, 9, 9, 0x01, 9, 9, 9, 9, 9]),
    (127, 1, [9, 9, 9, 0x7f, 9, 9, 9, 9, 9]),
    (128, 2, [9, 9, 9, 0x80, 0x01, 9, 9, 9, 9]),
    (300, 2, [9, 9, 9, 0xac, 0x02, 9, 9, 9, 9]),
    (16383, 2, [9, 9, 9, 0xff, 0x7f, 9, 9, 9, 9]),
    (16384, 3, [9, 9, 9, 0x80, 0x80, 0x01, 9, 9, 9]),
    (4294967295, 5, [9, 9, 9, 0xff, 0xff, 0xff, 0xff, 0x0f, 9]),
];

#[test]
fn codes(rt: HostRuntime) {
    for &(n, len, code) in &CODES {
        let mut out = [9u8; 9];
        assert_eq!(rt; varint::write(u64::from(n), &mut out[3..]), Ok(len));
        assert_eq!(rt; out, code);
        assert_eq!(rt; count_at(&code, 3), Ok((n, len)));
        assert_eq!(rt; count_at(&code[3..], 0), Ok((n, len)));
    }
}

#[test]
fn short_outputs(rt: HostRuntime) {
    for &(n, len, _) in &CODES {
        assert!(rt; 0 < len && len <= 5);
        let mut out = [9u8; 5];
        assert_eq!(rt;
            varint::write(u64::from(n), &mut out[..len - 1]),
            Err(ByteFault::Output)
        );
        assert_eq!(rt; out, [9; 5]);
    }
}

const REFUSED: [(&[u8], usize, ByteFault); 15] = [
    (&[], 0, ByteFault::Ends(0)),
    (&[0x80], 0, ByteFault::Ends(0)),
    (&[0xff, 0xff, 0xff, 0xff], 0, ByteFault::Ends(0)),
    (&[0x80, 0x00], 0, ByteFault::NotCount(0)),
    (&[0xff, 0x80, 0x00], 0, ByteFault::NotCount(0)),
    (&[0xff, 0xff, 0xff, 0xff, 0x10], 0, ByteFault::NotCount(0)),
    (&[0x80, 0x80, 0x80, 0x80, 0x00], 0, ByteFault::NotCount(0)),
    (&[0x80, 0x80, 0x80, 0x80, 0x80], 0, ByteFault::NotCount(0)),
    (
        &[0x80, 0x80, 0x80, 0x80, 0x80, 0x01],
        0,
        ByteFault::NotCount(0),
    ),
    (&[1, 2, 3], 3, ByteFault::Ends(3)),
    (&[1, 2], 3, ByteFault::Ends(3)),
    (&[1, 2, 3, 0xff, 0xff], 3, ByteFault::Ends(3)),
    (&[1, 2, 3, 0x80, 0x00, 0x01], 3, ByteFault::NotCount(3)),
    (
        &[1, 2, 3, 0xff, 0xff, 0xff, 0xff, 0x10],
        3,
        ByteFault::NotCount(3),
    ),
    (
        &[1, 2, 3, 0x80, 0x80, 0x80, 0x80, 0x80],
        3,
        ByteFault::NotCount(3),
    ),
];

#[test]
fn refusals(rt: HostRuntime) {
    for &(bytes, at, fault) in &REFUSED {
        assert_eq!(rt; count_at(bytes, at), Err(fault));
    }
}
