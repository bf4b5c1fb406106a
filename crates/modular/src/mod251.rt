// The integers modulo 251, in one byte; inverses by a table.
ghost use Rattle.std.proofs.Common.{◌≡◌, refl, lit<, lit≤};
ghost use Rattle.modular.specs.Primes.{inverse_mod};
ghost use Rattle.modular.specs.PrimeLaws.{tested};
ghost use Rattle.modular.specs.Mod251.{field251, codec251};

use crate::mod251::inverses::INVERSES;
use crate::number::Modular;
use crate::prime::Prime;
use algebra::field::Field;

mod inverses;

pub type Mod251 = Modular<251>;

impl Prime<251> for Mod251 {
    const WIDTH: usize = 1;

    ghost WIDTH = { 1 };

    ghost several = { lit< tt };

    ghost inverts = { tested 251 tt };

    ghost zero = { refl };

    ghost fits = { lit≤ tt };

    ghost narrow = { (lit≤ tt, lit≤ tt) };

    fn inverse(x: Mod251) -> Mod251
        ensures { result ≡ inverse_mod (lit< tt) x }
    {
        Modular {
            value: INVERSES[x.value as usize] as u32,
        }
    }
}

// Which field these numbers are, and that each takes one byte: called where a proof needs it, it does nothing.
pub fn meaning()
    ensures field { ⟦<Mod251 as Field>⟧.field ≡ field251 }
    ensures codec { ⟦<Mod251 as Field>⟧.codec ≡ codec251 }
{}
