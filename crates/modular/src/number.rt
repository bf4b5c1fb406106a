// The integers modulo P.
ghost use Rattle.std.specs.Prelude.{◌≡◌, ◌*◌, ◌%◌, ◌^◌, ◌<◌, ◌≤◌, refl, MatchOption};
ghost use Rattle.std.proofs.Common.{rules};
ghost use Rattle.algebra.specs.Modular.{Residue, residue, reduced};
ghost use Rattle.algebra.proofs.Residues.{equal_residues};
ghost use Rattle.modular.specs.Primes.{field_mod, codec_mod};
ghost use Rattle.modular.specs.PrimeLaws.{field_laws, codec_laws, at_most_64};

use crate::prime::Prime;
use algebra::bytes;
use algebra::fault::ByteFault;
use algebra::field::{Draw, Field};
use std::marker::Model;

// Each value is one number below P.
#[derive(Clone, Copy, PartialEq, Eq)]
pub struct Modular<const P: u32> {
    pub(crate) value: u32,
    ghost below: { value < P },
}

impl<const P: u32> Model for Modular<P> {
    ghost Value = { Residue P };

    ghost view = { λ m. residue m.value m.below };

    ghost inverse = { λ r. record { value = r.value; below = r.below } };
}

impl<const P: u32> Modular<P> {
    // The number itself; none from P on.
    // As the library's `NonZero` has it, and no `TryFrom`: its error would say no more than none does.
    pub fn new(value: u64) -> Option<Modular<P>>
        ensures { MatchOption result (P ≤ value) (λ x. x.value ≡ value) }
    {
        if value >= u64::from(P) {
            return None;
        }
        Some(Modular {
            value: value as u32,
        })
    }

    pub fn value(self) -> u64
        ensures { result ≡ self.entry.value }
    {
        u64::from(self.value)
    }

    fn times(self, other: Modular<P>) -> Modular<P>
        ensures { result.value ≡ self.entry.value * other.entry.value % P }
    {
        // The product of two small numbers fits 32 bits, in which a remainder takes less time.
        if P <= 65536 {
            return Modular {
                value: self.value * other.value % P,
            };
        }
        let product = u64::from(self.value) * u64::from(other.value);
        Modular {
            value: (product % u64::from(P)) as u32,
        }
    }

    // By the bits of the exponent, lowest first.
    pub fn pow(self, exponent: u64) -> Modular<P>
        ensures { result.value ≡ self.entry.value ^ exponent % P }
    {
        let mut square = self;
        let mut bits = exponent;
        let mut product = Modular { value: 1 % P };
        while bits > 0 {
            if bits % 2 == 1 {
                product = product.times(square);
            }
            square = square.times(square);
            bits /= 2;
        }
        product
    }
}

impl<const P: u32> Field for Modular<P>
where
    Modular<P>: Prime<P>,
{
    const SIZE: usize = <Modular<P> as Prime<P>>::WIDTH;

    ghost SIZE = { ⟦<Modular<P> as Prime<P>>⟧.WIDTH };

    ghost Elem = { Residue P };

    ghost means = { λ x. x };

    ghost pick = { λ x. x };

    ghost field = { field_mod ⟦<Modular<P> as Prime<P>>⟧.several };

    ghost codec = { codec_mod P ⟦<Modular<P> as Prime<P>>⟧.WIDTH };

    ghost equal = { equal_residues };

    ghost picked = { λ x. refl };

    ghost lawful = { field_laws ⟦<Modular<P> as Prime<P>>⟧.several ⟦<Modular<P> as Prime<P>>⟧.inverts ⟦<Modular<P> as Prime<P>>⟧.zero };

    ghost encodes = { codec_laws P ⟦<Modular<P> as Prime<P>>⟧.WIDTH ⟦<Modular<P> as Prime<P>>⟧.fits };

    ghost measured = { refl };

    ghost sized = { at_most_64 _ ⟦<Modular<P> as Prime<P>>⟧.narrow };

    fn zero() -> Modular<P> {
        Modular { value: 0 }
    }

    fn one() -> Modular<P> {
        Modular { value: 1 }
    }

    fn add(self, other: Modular<P>) -> Modular<P> {
        let sum = u64::from(self.value) + u64::from(other.value);
        Modular {
            value: (sum % u64::from(P)) as u32,
        }
    }

    fn mul(self, other: Modular<P>) -> Modular<P> {
        self.times(other)
    }

    fn neg(self) -> Modular<P> {
        Modular {
            value: (P - self.value) % P,
        }
    }

    fn inv(self) -> Modular<P> {
        <Modular<P> as Prime<P>>::inverse(self)
    }

    fn decode(code: &[u8]) -> Option<Modular<P>> {
        Modular::new(bytes::number(code, Self::SIZE)?)
    }

    fn write(self, out: &mut [u8]) -> Result<usize, ByteFault> {
        let code = self.value.to_be_bytes();
        bytes::put(&code[4 - Self::SIZE..], out)
    }
}

impl<const P: u32> Draw for Modular<P>
where
    Modular<P>: Prime<P>,
{
    ghost drawn = { reduced ⟦<Modular<P> as Prime<P>>⟧.several };

    fn draw(v: u64) -> Modular<P> {
        Modular {
            value: (v % u64::from(P)) as u32,
        }
    }
}
