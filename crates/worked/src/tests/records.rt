// Setups, proofs and claims: what is written is read back, what is refused, and what an area then holds.
use crate::tests::number;
use algebra::claim::Claim;
use algebra::entry::{Entry, Layer, Refusal};
use algebra::fault::{ByteFault, SetupFault};
use algebra::proof::Proof;
use algebra::setup::Setup;
use algebra::space::Space;
use algebra::varint;
use bench::squares::Square;
use bench::squares::setup::bench_elements;
use modular::mod251::Mod251;
use std::process::Abort;
use std::test::Fail;

// Q 16, one pair, G 4, H 9; and a byte that follows.
const SETUP: [u8; 8] = [0x00, 0x10, 0x01, 0x00, 0x04, 0x00, 0x09, 9];

// Two rounds, L 4, R 9, L 16, R 25, the summary 0 to 31, then 7 and 250; and a byte that follows.
const PROOF: [u8; 44] = [
    0x02, 0x00, 0x04, 0x00, 0x09, 0x00, 0x10, 0x00, 0x19, 0, 1, 2, 3, 4, 5, 6, 7, 8, 9, 10, 11, 12,
    13, 14, 15, 16, 17, 18, 19, 20, 21, 22, 23, 24, 25, 26, 27, 28, 29, 30, 31, 0x07, 0xfa, 9,
];

// P 97, c 15, y 1, log_len 3.
const CLAIM: [u8; 5] = [0x00, 0x61, 0x0f, 0x01, 0x03];

// What an area holds before.
const ONES: [u64; 5] = [1, 1, 1, 1, 1];

// Reads into an area of so many places that holds ones; the answer, and what the area then holds. Bytes, limit and places are one case of a table.
fn setup_read(
    rt: &impl Abort,
    bytes: &[u8],
    highest: usize,
    places: usize,
) -> (Result<(usize, usize), ByteFault>, [u64; 5]) {
    assert!(rt; places <= 5);
    let mut area = [Square::zero(); 5];
    let answer = Setup::read(bytes, highest, &mut area[..places]);
    (answer, area.map(Square::value))
}

#[test]
fn setups_written(rt: HostRuntime) -> Result<(), Fail> {
    let squares = bench_elements();
    let setup = Setup::new(&squares[..3])?;
    assert_eq!(rt; setup.size(), 7);
    let mut out = [9u8; 8];
    assert_eq!(rt; setup.write(&mut out[..6]), Err(ByteFault::Output));
    assert_eq!(rt; out, [9; 8]);
    assert_eq!(rt; setup.write(&mut out), Ok(7));
    assert_eq!(rt; out, SETUP);
    Ok(())
}

// Where a field begins and ends, and what the area holds if it is cut.
const SETUP_FIELDS: [(usize, usize, [u64; 5]); 4] = [
    (0, 2, ONES),
    (2, 3, ONES),
    (3, 5, [1, 1, 16, 1, 1]),
    (5, 7, [4, 1, 16, 1, 1]),
];

#[test]
fn setups_cut(rt: HostRuntime) {
    for &(begin, end, area) in &SETUP_FIELDS {
        for cut in begin..end {
            assert!(rt; cut <= 7);
            assert_eq!(rt;
                setup_read(&rt, &SETUP[..cut], 1, 5),
                (Err(ByteFault::Ends(begin)), area)
            );
        }
    }
}

// The bytes, the highest count, how many places the area has, the answer, and what the area then holds.
const SETUPS: [(
    &[u8],
    usize,
    usize,
    Result<(usize, usize), ByteFault>,
    [u64; 5],
); 17] = [
    (&SETUP, 1, 5, Ok((1, 7)), [4, 9, 16, 1, 1]),
    (&SETUP, 1, 3, Ok((1, 7)), [4, 9, 16, 1, 1]),
    (&SETUP, 9, 5, Ok((1, 7)), [4, 9, 16, 1, 1]),
    (&[0, 16, 0], 0, 1, Ok((0, 3)), [16, 1, 1, 1, 1]),
    (&[0, 16, 0, 0, 4], 9, 5, Ok((0, 3)), [16, 1, 1, 1, 1]),
    (
        &[0, 16, 2, 0, 4, 0, 9, 0, 25, 1, 0, 7],
        2,
        5,
        Ok((2, 11)),
        [4, 25, 9, 256, 16],
    ),
    (&SETUP, 0, 5, Err(ByteFault::TooMany(2)), ONES),
    (&SETUP, 0, 2, Err(ByteFault::TooMany(2)), ONES),
    (&SETUP, 1, 2, Err(ByteFault::Area(2)), ONES),
    (&[0, 16, 0], 0, 0, Err(ByteFault::Area(2)), ONES),
    (&[0, 5, 0x80, 0], 1, 5, Err(ByteFault::NotElement(0)), ONES),
    (&[0, 16, 0x80, 0], 1, 5, Err(ByteFault::NotCount(2)), ONES),
    (
        &[0, 16, 0xff, 0xff, 0xff, 0xff, 0x0f],
        4294967295,
        5,
        Err(ByteFault::TooMany(2)),
        ONES,
    ),
    // 2^20 pairs are the most.
    (
        &[0, 16, 0x81, 0x80, 0x40],
        4294967295,
        5,
        Err(ByteFault::TooMany(2)),
        ONES,
    ),
    (
        &[0, 16, 0x80, 0x80, 0x40],
        4294967295,
        5,
        Err(ByteFault::Area(2)),
        ONES,
    ),
    (
        &[0, 16, 1, 0, 5, 0, 9],
        1,
        5,
        Err(ByteFault::NotElement(3)),
        [1, 1, 16, 1, 1],
    ),
    (
        &[0, 16, 1, 0, 4, 0, 0],
        1,
        5,
        Err(ByteFault::NotElement(5)),
        [4, 1, 16, 1, 1],
    ),
];

#[test]
fn setups_read(rt: HostRuntime) {
    for &(bytes, highest, places, answer, area) in &SETUPS {
        assert_eq!(rt; setup_read(&rt, bytes, highest, places), (answer, area));
    }
}

#[test]
fn bench_setup(rt: HostRuntime) -> Result<(), Fail> {
    let row = bench_elements();
    let setup = Setup::new(&row)?;
    assert_eq!(rt; setup.size(), 131);
    let mut out = [9u8; 131];
    assert_eq!(rt; setup.write(&mut out), Ok(131));
    let mut area = [Square::zero(); 65];
    assert_eq!(rt; Setup::read(&out, 32, &mut area), Ok((32, 131)));
    assert_eq!(rt; area.map(Square::value), row.map(Square::value));
    Ok(())
}

// Reads into an area of so many places that holds ones; how many bytes it took, and what the area then holds. Bytes, limit and places are one case of a table.
fn proof_read(
    rt: &impl Abort,
    bytes: &[u8],
    highest: usize,
    places: usize,
) -> (Result<usize, ByteFault>, [u64; 5]) {
    assert!(rt; places <= 5);
    let mut area = [Square::zero(); 5];
    let read = Proof::<Mod251>::read(bytes, highest, &mut area[..places]);
    (read.map(|(_, used)| used), area.map(Square::value))
}

fn summary() -> [u8; 32] {
    PROOF[9..41].try_into().unwrap()
}

// How many places the area and the output have, and the fault.
const ROOMS: [(usize, usize, ByteFault); 4] = [
    (3, 42, ByteFault::Area(0)),
    (3, 44, ByteFault::Area(0)),
    (4, 42, ByteFault::Output),
    (5, 0, ByteFault::Output),
];

#[test]
fn proofs_written(rt: HostRuntime) -> Result<(), Fail> {
    let proof = Proof {
        rounds: 2,
        summary: summary(),
        a_final: number(7)?,
        b_final: number(250)?,
    };
    let squares = bench_elements();
    for &(places, room, fault) in &ROOMS {
        assert!(rt; places <= 5 && room <= 44);
        let mut out = [9u8; 44];
        assert_eq!(rt;
            proof.write(&squares[..places], &mut out[..room]),
            Err(fault)
        );
        assert_eq!(rt; out, [9; 44]);
    }
    let mut out = [9u8; 44];
    assert_eq!(rt; proof.write(&squares[..4], &mut out), Ok(43));
    assert_eq!(rt; out, PROOF);
    assert_eq!(rt; proof.size::<Square>(), 43);
    Ok(())
}

#[test]
fn proofs_read_back(rt: HostRuntime) -> Result<(), Fail> {
    let mut area = [Square::zero(); 5];
    let (proof, used) = Proof::<Mod251>::read(&PROOF, 4, &mut area)?;
    assert_eq!(rt; used, 43);
    assert_eq!(rt; area.map(Square::value), [4, 9, 16, 25, 1]);
    assert_eq!(rt; proof.rounds, 2);
    assert_eq!(rt; proof.summary, summary());
    assert_eq!(rt; proof.a_final.value(), 7);
    assert_eq!(rt; proof.b_final.value(), 250);
    Ok(())
}

// Where a field begins and ends, and what the area holds if it is cut.
const PROOF_FIELDS: [(usize, usize, [u64; 5]); 8] = [
    (0, 1, ONES),
    (1, 3, ONES),
    (3, 5, [4, 1, 1, 1, 1]),
    (5, 7, [4, 9, 1, 1, 1]),
    (7, 9, [4, 9, 16, 1, 1]),
    (9, 41, [4, 9, 16, 25, 1]),
    (41, 42, [4, 9, 16, 25, 1]),
    (42, 43, [4, 9, 16, 25, 1]),
];

#[test]
fn proofs_cut(rt: HostRuntime) {
    for &(begin, end, area) in &PROOF_FIELDS {
        for cut in begin..end {
            assert!(rt; cut <= 43);
            assert_eq!(rt;
                proof_read(&rt, &PROOF[..cut], 4, 5),
                (Err(ByteFault::Ends(begin)), area)
            );
        }
    }
}

// Reads the proof with one byte changed, as one case of a table says.
fn changed_read(
    rt: &impl Abort,
    at: usize,
    byte: u8,
    highest: usize,
    places: usize,
) -> (Result<usize, ByteFault>, [u64; 5]) {
    assert!(rt; at < 44);
    let mut bytes = PROOF;
    bytes[at] = byte;
    proof_read(rt, &bytes, highest, places)
}

// Which byte, to what, the fault, and what the area then holds.
const CHANGED: [(usize, u8, ByteFault, [u64; 5]); 7] = [
    (0, 0x80, ByteFault::NotCount(0), ONES),
    (2, 5, ByteFault::NotElement(1), ONES),
    (4, 5, ByteFault::NotElement(3), [4, 1, 1, 1, 1]),
    (6, 5, ByteFault::NotElement(5), [4, 9, 1, 1, 1]),
    (8, 5, ByteFault::NotElement(7), [4, 9, 16, 1, 1]),
    (41, 251, ByteFault::NotElement(41), [4, 9, 16, 25, 1]),
    (42, 255, ByteFault::NotElement(42), [4, 9, 16, 25, 1]),
];

#[test]
fn proofs_changed(rt: HostRuntime) {
    for &(at, byte, fault, area) in &CHANGED {
        assert_eq!(rt; changed_read(&rt, at, byte, 4, 5), (Err(fault), area));
    }
}

// The count of rounds, the highest count of loads, how many places the area has, and the fault; the area stays.
const ROUNDS: [(u8, usize, usize, ByteFault); 8] = [
    (1, 1, 5, ByteFault::TooMany(0)),
    (1, 2, 1, ByteFault::Area(0)),
    (2, 0, 5, ByteFault::TooMany(0)),
    (2, 3, 5, ByteFault::TooMany(0)),
    (2, 3, 3, ByteFault::TooMany(0)),
    (2, 4, 3, ByteFault::Area(0)),
    (63, 9223372036854775808, 5, ByteFault::Area(0)),
    (64, 18446744073709551615, 5, ByteFault::TooMany(0)),
];

#[test]
fn rounds_refused(rt: HostRuntime) {
    for &(rounds, highest, places, fault) in &ROUNDS {
        assert_eq!(rt;
            changed_read(&rt, 0, rounds, highest, places),
            (Err(fault), ONES)
        );
    }
}

#[test]
fn rounds_accepted(rt: HostRuntime) {
    assert_eq!(rt; proof_read(&rt, &PROOF, 4, 4), (Ok(43), [4, 9, 16, 25, 1]));
    // One round, which is the second of the two, and none: the byte before stands for the count.
    let mut one = PROOF;
    one[4] = 1;
    assert_eq!(rt;
        proof_read(&rt, &one[4..], 2, 2),
        (Ok(39), [16, 25, 1, 1, 1])
    );
    let mut none = PROOF;
    none[8] = 0;
    assert_eq!(rt; proof_read(&rt, &none[8..], 0, 0), (Ok(35), ONES));
}

// P, c, y, log_len, and how many bytes they took.
fn claim_read(bytes: &[u8]) -> Result<(u64, u64, u64, u8, usize), ByteFault> {
    let (claim, used) = Claim::<Mod251, Square>::read(bytes)?;
    Ok((
        claim.commitment.value(),
        claim.product.value(),
        claim.y.value(),
        claim.log_len,
        used,
    ))
}

const CLAIMS: [(&[u8], Result<(u64, u64, u64, u8, usize), ByteFault>); 12] = [
    (&CLAIM, Ok((97, 15, 1, 3, 5))),
    (&[0, 97, 250, 0, 255, 251], Ok((97, 250, 0, 255, 5))),
    (&[], Err(ByteFault::Ends(0))),
    (&[0], Err(ByteFault::Ends(0))),
    (&[0, 97], Err(ByteFault::Ends(2))),
    (&[0, 97, 15], Err(ByteFault::Ends(3))),
    (&[0, 97, 15, 1], Err(ByteFault::Ends(4))),
    (&[0, 5, 251], Err(ByteFault::NotElement(0))),
    (&[0, 97, 251, 1, 3], Err(ByteFault::NotElement(2))),
    (&[0, 97, 255, 251], Err(ByteFault::NotElement(2))),
    (&[0, 97, 15, 251, 3], Err(ByteFault::NotElement(3))),
    (&[0, 97, 15, 255], Err(ByteFault::NotElement(3))),
];

#[test]
fn claims_read(rt: HostRuntime) {
    for &(bytes, expected) in &CLAIMS {
        assert_eq!(rt; claim_read(bytes), expected);
    }
}

// The bytes of a setup, the highest count, how many places the area has, and the fault's number and place.
const FAULTS: [(&[u8], usize, usize, u8, usize); 5] = [
    (&[0, 16, 1], 1, 5, 1, 3),
    (&[0, 16, 1, 0, 4, 0, 5], 1, 5, 2, 5),
    (&[0, 16, 0x80, 0], 1, 5, 3, 2),
    (&SETUP, 0, 5, 4, 2),
    (&SETUP, 1, 2, 5, 2),
];

// The entry of a refusal, from its parts.
fn parts(refusal: impl Refusal) -> Entry {
    Entry {
        number: refusal.number(),
        layer: refusal.layer(),
        place: refusal.place(),
    }
}

#[test]
fn faults(rt: HostRuntime) {
    for &(bytes, highest, places, number, place) in &FAULTS {
        let (answer, _) = setup_read(&rt, bytes, highest, places);
        let entry = Entry {
            number,
            layer: Layer::Bytes,
            place,
        };
        assert_eq!(rt; answer.map_err(ByteFault::entry), Err(entry));
        assert_eq!(rt; answer.map_err(parts), Err(entry));
    }
}

#[test]
fn faults_without_place(rt: HostRuntime) {
    let entry = Entry {
        number: 6,
        layer: Layer::Bytes,
        place: 0,
    };
    let written = varint::write(0, &mut []);
    assert_eq!(rt; written.map_err(ByteFault::entry), Err(entry));
    assert_eq!(rt; written.map_err(parts), Err(entry));
    let entry = Entry {
        number: 23,
        layer: Layer::Argument,
        place: 0,
    };
    let even = [Square::zero(); 2];
    let refusal = Setup::new(&even).err();
    assert_eq!(rt; refusal.map(SetupFault::entry), Some(entry));
    assert_eq!(rt; refusal.map(parts), Some(entry));
}
