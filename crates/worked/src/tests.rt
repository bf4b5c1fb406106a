// The small worked cases, run.
use algebra::claim::Claim;
use algebra::fault::ByteFault;
use algebra::field::Field;
use algebra::reader::Reader;
use algebra::setup::Setup;
use algebra::space::Space;
use bench::squares::Square;
use bench::squares::setup::bench_elements;
use ipa::fault::Fault;
use ipa::witness::new_with_claim;
use modular::number::Modular;
use std::test::Fail;

mod counts;
mod fields;
mod records;

fn number<const P: u32>(n: u64) -> Result<Modular<P>, Fail> {
    Modular::new(n).ok_or_else(|| Fail::new("no number of the field"))
}

fn element(n: u64) -> Result<Square, Fail> {
    Square::new(n).ok_or_else(|| Fail::new("no square modulo 503"))
}

// The element whose bytes begin at the offset; the tables have both, as they would be seen on the wire.
fn read_at<G: Space>(bytes: &[u8], at: usize) -> Result<G, ByteFault> {
    Reader::new(bytes, at).element()
}

#[test]
fn inverses(rt: HostRuntime) -> Result<(), Fail> {
    let table = [(2, 126), (250, 250), (0, 0)];
    for (n, inverse) in table {
        assert_eq!(rt; number::<251>(n)?.inv().value(), inverse);
    }
    Ok(())
}

#[test]
fn squares(rt: HostRuntime) -> Result<(), Fail> {
    let sum = element(4)?
        .scale(number(3)?)
        .add(element(9)?.scale(number(5)?));
    assert_eq!(rt; sum.value(), 97);
    let table: [(&[u8], Result<u64, ByteFault>); 6] = [
        (&[0, 2], Ok(2)),
        (&[0, 0], Err(ByteFault::NotElement(0))),
        (&[0, 5], Err(ByteFault::NotElement(0))),
        (&[1, 247], Err(ByteFault::NotElement(0))),
        (&[0], Err(ByteFault::Ends(0))),
        (&[0, 4, 9], Ok(4)),
    ];
    for (bytes, expected) in table {
        assert_eq!(rt; read_at(bytes, 0).map(Square::value), expected);
    }
    Ok(())
}

#[test]
fn claims(rt: HostRuntime) -> Result<(), Fail> {
    let claim = Claim {
        commitment: element(97)?,
        product: number(15)?,
        y: number(1)?,
        log_len: 0,
    };
    let mut out = [9u8; 6];
    assert_eq!(rt; claim.write(&mut out), Ok(5));
    assert_eq!(rt; out, [0x00, 0x61, 0x0f, 0x01, 0x00, 9]);
    assert_eq!(rt; claim.write(&mut out[..4]), Err(ByteFault::Output));
    Ok(())
}

#[test]
fn bench(rt: HostRuntime) -> Result<(), Fail> {
    let row = bench_elements();
    let setup = Setup::new(&row)?;
    assert_eq!(rt; setup.product_generator().value(), 332);
    let table = [(0, true), (5, true), (6, false), (64, false), (255, false)];
    for (k, supported) in table {
        assert_eq!(rt; setup.supports(k), supported);
    }
    Ok(())
}

#[test]
fn witnesses(rt: HostRuntime) -> Result<(), Fail> {
    let row = bench_elements();
    let setup = Setup::new(&row)?;
    let vector = [number(7)?; 64];
    let table = [
        (0, 0, Err(Fault::NotPowerOfTwo)),
        (1, 1, Ok(0)),
        (2, 2, Ok(1)),
        (3, 3, Err(Fault::NotPowerOfTwo)),
        (2, 1, Err(Fault::Lengths)),
        (32, 32, Ok(5)),
        (64, 64, Err(Fault::SmallSetup)),
    ];
    for (len_a, len_b, expected) in table {
        assert!(rt; len_a <= 64 && len_b <= 64);
        let claim = new_with_claim(&setup, &vector[..len_a], &vector[..len_b], number(3)?);
        assert_eq!(rt; claim.map(|claim| claim.log_len), expected);
    }
    Ok(())
}
