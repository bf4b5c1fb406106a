// A witness: two vectors of one length, a power of two, and the claim that is true of them.
ghost use Rattle.std.specs.Prelude.{◌≡◌, ◌^◌, ◌<◌, false, MatchOption};
ghost use Rattle.ipa.specs.Claiming.{is_power_of_two, MakesClaim};

use crate::fault::Fault;
use algebra::claim::Claim;
use algebra::field::Field;
use algebra::setup::Setup;
use algebra::space::Space;
use algebra::sums;

// k where the number is 2^k.
fn log2(n: usize) -> Option<u8>
    ensures { MatchOption result (is_power_of_two n ≡ false) (λ k. (2 ^ k ≡ n) × (k < 64)) }
{
    let k = n.checked_ilog2()?;
    if 1usize << k != n {
        return None;
    }
    Some(k as u8)
}

// The claim that is true of a and b, with b weighted by the powers of y.
pub fn new_with_claim<F: Field, G: Space<Scalar = F>>(
    setup: &Setup<G>,
    a: &[F],
    b: &[F],
    y: F,
) -> Result<Claim<F, G>, Fault>
    ensures { MakesClaim F.Field.own G.Space.own setup.now.elements.now a.now b.now y result }
{
    if a.len() != b.len() {
        return Err(Fault::Lengths);
    }
    let log_len = log2(a.len()).ok_or(Fault::NotPowerOfTwo)?;
    if setup.count() < a.len() {
        return Err(Fault::SmallSetup);
    }
    let left = sums::msm(a, setup.g());
    let right = sums::msm_powers(y, b, setup.h());
    Ok(Claim {
        commitment: left.add(right),
        product: sums::dot(a, b),
        y,
        log_len,
    })
}
