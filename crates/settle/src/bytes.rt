// A claim as bytes, and back.
ghost use Rattle.std.specs.Prelude.{◌≡◌, IsTrue, take};
ghost use Rattle.algebra.specs.Claims.{encode_claim};
ghost use Rattle.modular.specs.Mod251.{codec251};
ghost use Rattle.bench.specs.Squares.{codec503};
ghost use Rattle.settle.specs.Day.{claimed};

use algebra::claim::Claim;
use algebra::field::Field;
use algebra::space::Space;
use bench::squares::Square;
use modular::mod251::Mod251;

// The five bytes of a claim at the bench.
pub fn claim_bytes(claim: &Claim<Mod251, Square>) -> [u8; 5]
    ensures { result ≡ encode_claim codec251 codec503 (claimed claim.now) }
{
    let mut out = [0u8; 5];
    let _ = claim.write(&mut out);
    out
}

// Whether the bytes, read back, begin with the claim.
pub fn reads_back(bytes: &[u8], claim: &Claim<Mod251, Square>) -> bool
    ensures only { IsTrue result → take 5 bytes.now ≡ encode_claim codec251 codec503 (claimed claim.now) }
    ensures each { take 5 bytes.now ≡ encode_claim codec251 codec503 (claimed claim.now) → IsTrue result }
{
    // Tried with `is_ok_and`: what its closure answers has no name that a proof can cite, and the proof did not close.
    match Claim::<Mod251, Square>::read(bytes) {
        Ok((read, _)) => read.same(claim),
        Err(_) => false,
    }
}
