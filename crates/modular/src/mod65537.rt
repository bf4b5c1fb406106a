// The integers modulo 65,537, in four bytes; inverses by a power.
ghost use Rattle.std.proofs.Common.{◌≡◌, refl, lit<, lit≤};
ghost use Rattle.modular.specs.Primes.{inverse_mod};
ghost use Rattle.modular.specs.Orders.{inverts as inverts65537};
ghost use Rattle.modular.specs.Mod65537.{field65537, codec65537};

use crate::number::Modular;
use crate::prime::Prime;
use algebra::field::Field;

pub type Mod65537 = Modular<65537>;

impl Prime<65537> for Mod65537 {
    const WIDTH: usize = 4;

    ghost WIDTH = { 4 };

    ghost several = { lit< tt };

    ghost inverts = { inverts65537 };

    ghost zero = { refl };

    ghost fits = { lit≤ tt };

    ghost narrow = { (lit≤ tt, lit≤ tt) };

    fn inverse(x: Mod65537) -> Mod65537
        ensures { result ≡ inverse_mod (lit< tt) x }
    {
        x.pow(65535)
    }
}

// Which field these numbers are, and that each takes four bytes: called where a proof needs it, it does nothing.
pub fn meaning()
    ensures field { ⟦<Mod65537 as Field>⟧.field ≡ field65537 }
    ensures codec { ⟦<Mod65537 as Field>⟧.codec ≡ codec65537 }
{}
