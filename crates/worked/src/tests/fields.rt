// Numbers, elements and rows: what is read back, what is refused, and worked facts of the fields.
use crate::tests::{element, number, read_at};
use algebra::fault::ByteFault;
use algebra::field::{Draw, Field};
use algebra::space::Space;
use bench::squares::Square;
use modular::mod251::Mod251;
use modular::mod65537::Mod65537;
use plant::byte::Byte;
use plant::row::Row;
use std::process::Abort;
use std::test::Fail;

const SQUARES: [(&[u8], usize, Result<u64, ByteFault>); 12] = [
    (&[0x00, 0x01], 0, Ok(1)),
    (&[0x01, 0xf2], 0, Ok(498)),
    (&[7, 0x00, 0x02, 7], 1, Ok(2)),
    (&[0x00, 0x00], 0, Err(ByteFault::NotElement(0))),
    (&[7, 0x00, 0x05, 7], 1, Err(ByteFault::NotElement(1))),
    (&[0x01, 0xf6], 0, Err(ByteFault::NotElement(0))),
    (&[0x01, 0xf7], 0, Err(ByteFault::NotElement(0))),
    (&[0x01, 0xf8], 0, Err(ByteFault::NotElement(0))),
    (&[0xff, 0xff], 0, Err(ByteFault::NotElement(0))),
    (&[], 0, Err(ByteFault::Ends(0))),
    (&[0x00, 0x04], 1, Err(ByteFault::Ends(1))),
    (&[0x00, 0x04], 3, Err(ByteFault::Ends(3))),
];

#[test]
fn squares(rt: HostRuntime) {
    for &(bytes, at, expected) in &SQUARES {
        assert_eq!(rt; read_at(bytes, at).map(Square::value), expected);
    }
}

// Of all pairs of bytes, 251 are read as elements, each the one that is written so.
#[test]
fn all_squares(rt: HostRuntime) -> Result<(), Fail> {
    let mut accepted = 0u32;
    for n in 0..=u16::MAX {
        let code = n.to_be_bytes();
        match read_at(&code, 0).map(Square::value) {
            Ok(value) => {
                let mut out = [9u8; 2];
                assert_eq!(rt; element(value)?.write(&mut out), Ok(2));
                assert_eq!(rt; out, code);
                accepted = accepted.saturating_add(1);
            }
            Err(fault) => assert_eq!(rt; fault, ByteFault::NotElement(0)),
        }
    }
    assert_eq!(rt; accepted, 251);
    Ok(())
}

#[test]
fn small_numbers(rt: HostRuntime) {
    for n in 0..=u8::MAX {
        let expected = if n < 251 {
            Ok(u64::from(n))
        } else {
            Err(ByteFault::NotElement(2))
        };
        assert_eq!(rt; read_at(&[1, 1, n, 1], 2).map(Mod251::value), expected);
    }
    assert_eq!(rt;
        read_at(&[1], 1).map(Mod251::value),
        Err(ByteFault::Ends(1))
    );
}

const LARGE: [(&[u8], usize, Result<u64, ByteFault>); 9] = [
    (&[0x00, 0x00, 0x00, 0x00], 0, Ok(0)),
    (&[0x00, 0x01, 0x00, 0x00], 0, Ok(65536)),
    (&[7, 0x00, 0x00, 0x80, 0x01, 7], 1, Ok(32769)),
    (&[0x00, 0x01, 0x00, 0x01], 0, Err(ByteFault::NotElement(0))),
    (&[0x00, 0x01, 0x00, 0x02], 0, Err(ByteFault::NotElement(0))),
    (&[0xff, 0xff, 0xff, 0xff], 0, Err(ByteFault::NotElement(0))),
    (
        &[7, 0x01, 0x00, 0x00, 0x00],
        1,
        Err(ByteFault::NotElement(1)),
    ),
    (&[0x00, 0x01, 0x00], 0, Err(ByteFault::Ends(0))),
    (&[0xff, 0xff, 0xff, 0xff], 1, Err(ByteFault::Ends(1))),
];

#[test]
fn large_numbers(rt: HostRuntime) {
    for &(bytes, at, expected) in &LARGE {
        assert_eq!(rt; read_at(bytes, at).map(Mod65537::value), expected);
    }
}

#[test]
fn bytes(rt: HostRuntime) {
    for n in 0..=u8::MAX {
        let mut out = [9u8; 2];
        assert_eq!(rt; Field::write(Byte::new(n), &mut out), Ok(1));
        assert_eq!(rt; out, [n, 9]);
        assert_eq!(rt; read_at(&out, 0).map(Byte::value), Ok(n));
    }
    assert_eq!(rt;
        read_at(&[1, 2], 2).map(Byte::value),
        Err(ByteFault::Ends(2))
    );
}

// The row takes so many bytes at the front of the code, whose others stay, and is read back. The length is what the case expects.
fn row_and_code<F: Draw>(
    rt: &impl Abort,
    [w, x, y, z]: [u64; 4],
    len: usize,
    code: [u8; 17],
) -> Result<(), Fail> {
    let row = Row {
        w: F::draw(w),
        x: F::draw(x),
        y: F::draw(y),
        z: F::draw(z),
    };
    let mut out = [9u8; 17];
    assert_eq!(rt; row.write(&mut out), Ok(len));
    assert_eq!(rt; out, code);
    assert!(rt; read_at::<Row<F>>(&code, 0)? == row);
    Ok(())
}

#[test]
fn rows(rt: HostRuntime) -> Result<(), Fail> {
    let code = [0, 1, 2, 250, 9, 9, 9, 9, 9, 9, 9, 9, 9, 9, 9, 9, 9];
    row_and_code::<Mod251>(&rt, [0, 1, 2, 250], 4, code)?;
    let code = [0, 1, 0, 0, 0, 0, 0, 1, 0, 0, 1, 0, 0, 0, 255, 255, 9];
    row_and_code::<Mod65537>(&rt, [65536, 1, 256, 65535], 16, code)?;
    let code = [87, 131, 255, 0, 9, 9, 9, 9, 9, 9, 9, 9, 9, 9, 9, 9, 9];
    row_and_code::<Byte>(&rt, [87, 131, 255, 0], 4, code)
}

// One place short for a row, and for a number: nothing is written.
#[test]
fn short_outputs(rt: HostRuntime) {
    let mut out = [9u8; 15];
    assert_eq!(rt;
        Row::<Mod65537>::zero().write(&mut out),
        Err(ByteFault::Output)
    );
    assert_eq!(rt;
        Field::write(<Mod65537 as Field>::zero(), &mut out[..3]),
        Err(ByteFault::Output)
    );
    assert_eq!(rt; out, [9; 15]);
}

// Whichever number is refused, the fault has the offset at which the row begins.
const ROWS: [(&[u8], usize, Result<[u64; 4], ByteFault>); 10] = [
    (&[1, 2, 3, 250], 0, Ok([1, 2, 3, 250])),
    (&[9, 9, 1, 2, 3, 4, 251], 2, Ok([1, 2, 3, 4])),
    (&[251, 2, 3, 4], 0, Err(ByteFault::NotElement(0))),
    (&[1, 251, 3, 4], 0, Err(ByteFault::NotElement(0))),
    (&[9, 9, 1, 251, 3, 4], 2, Err(ByteFault::NotElement(2))),
    (&[9, 9, 1, 2, 251, 4], 2, Err(ByteFault::NotElement(2))),
    (&[9, 9, 1, 2, 3, 255], 2, Err(ByteFault::NotElement(2))),
    (&[1, 2, 3], 0, Err(ByteFault::Ends(0))),
    (&[1, 251, 3], 0, Err(ByteFault::Ends(0))),
    (&[9, 9, 1, 2, 3], 2, Err(ByteFault::Ends(2))),
];

#[test]
fn rows_read(rt: HostRuntime) {
    for &(bytes, at, expected) in &ROWS {
        let row = read_at::<Row<Mod251>>(bytes, at);
        assert_eq!(rt;
            row.map(|row| [row.w, row.x, row.y, row.z].map(Mod251::value)),
            expected
        );
    }
}

#[test]
fn large_inverses(rt: HostRuntime) -> Result<(), Fail> {
    assert_eq!(rt; number::<65537>(2)?.inv().value(), 32769);
    for n in [1, 2, 3, 255, 256, 257, 32769, 65535, 65536] {
        let x = number::<65537>(n)?;
        assert_eq!(rt; x.mul(x.inv()).value(), 1);
    }
    assert_eq!(rt; number::<65537>(0)?.inv().value(), 0);
    Ok(())
}

#[test]
fn byte_products(rt: HostRuntime) {
    assert_eq!(rt; Byte::new(0x57).mul(Byte::new(0x83)).value(), 0xc1);
    assert_eq!(rt; Byte::new(0x53).inv().value(), 0xca);
    for n in 1..=u8::MAX {
        let x = Byte::new(n);
        assert_eq!(rt; x.mul(x.inv()).value(), 1);
    }
    assert_eq!(rt; Byte::new(0).inv().value(), 0);
}

// A 64-bit number, and what is drawn from it modulo 251, modulo 65,537 and in the byte field.
const DRAWS: [(u64, (u64, u64, u8)); 7] = [
    (0, (0, 0, 0)),
    (250, (250, 250, 250)),
    (251, (0, 251, 251)),
    (256, (5, 256, 0)),
    (65536, (25, 65536, 0)),
    (65537, (26, 0, 1)),
    (18446744073709551615, (68, 0, 255)),
];

#[test]
fn draws(rt: HostRuntime) {
    for &(v, expected) in &DRAWS {
        let drawn = (
            Mod251::draw(v).value(),
            Mod65537::draw(v).value(),
            Byte::draw(v).value(),
        );
        assert_eq!(rt; drawn, expected);
    }
}
