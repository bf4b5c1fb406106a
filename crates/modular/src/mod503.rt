// The integers modulo 503, in two bytes; inverses by a power.
ghost use Rattle.std.proofs.Common.{◌≡◌, refl, lit<, lit≤};
ghost use Rattle.modular.specs.Primes.{inverse_mod, codec_mod};
ghost use Rattle.modular.specs.PrimeLaws.{tested};

use crate::number::Modular;
use crate::prime::Prime;
use algebra::field::Field;

pub type Mod503 = Modular<503>;

impl Prime<503> for Mod503 {
    const WIDTH: usize = 2;

    ghost WIDTH = { 2 };

    ghost several = { lit< tt };

    ghost inverts = { tested 503 tt };

    ghost zero = { refl };

    ghost fits = { lit≤ tt };

    ghost narrow = { (lit≤ tt, lit≤ tt) };

    fn inverse(x: Mod503) -> Mod503
        ensures { result ≡ inverse_mod (lit< tt) x }
    {
        x.pow(501)
    }
}

// That each of these numbers takes two bytes: called where a proof needs it, it does nothing.
pub fn meaning()
    ensures { ⟦<Mod503 as Field>⟧.codec ≡ codec_mod 503 2 }
{}
