// The field of 256 elements of FIPS 197, in one byte.
ghost use Rattle.std.specs.Prelude.{◌≡◌, ◌<◌, refl};
ghost use Rattle.std.proofs.Common.{lit≤, mod-eq_of_lt};
ghost use Rattle.plant.specs.ByteField.{Byte as Element, byte, byte_field, byte_codec, times};
ghost use Rattle.plant.specs.ByteLaws.{byte_encodes, byte_laws};
ghost use Rattle.algebra.proofs.Residues.{equal_residues};

use algebra::bytes;
use algebra::fault::ByteFault;
use algebra::field::{Draw, Field};
use std::marker::Model;

// Bit k is the coefficient of x^k.
#[derive(Clone, Copy, PartialEq, Eq)]
pub struct Byte {
    value: u8,
}

impl Model for Byte {
    ghost Value = { Element };

    ghost view = { λ x. byte x.value };

    ghost invariant = { λ x. x.value < 256 };

    ghost inverse = { λ e. record { value = e.value } };

    ghost inverse_ok = { λ x h i. record { value = mod-eq_of_lt h i } };
}

impl Byte {
    // As in the other fields, and no `From`: so elements of all are made and shown by the same two names.
    pub fn new(value: u8) -> Byte
        ensures { result.value ≡ value }
    {
        Byte { value }
    }

    pub fn value(self) -> u8
        ensures { result ≡ self.value }
    {
        self.value
    }
}

// x, which is 2, times a; where that has x^8, it leaves x^4 + x^3 + x + 1, which is 1b.
fn times_x(a: u8) -> u8
    ensures { result ≡ (times (byte 2) (byte a)).value }
{
    (a << 1) ^ ((a >> 7) * 0x1b)
}

impl Field for Byte {
    const SIZE: usize = 1;

    ghost SIZE = { 1 };

    ghost Elem = { Element };

    ghost means = { λ x. x };

    ghost pick = { λ x. x };

    ghost field = { byte_field };

    ghost codec = { byte_codec };

    ghost equal = { equal_residues };

    ghost picked = { λ x. refl };

    ghost lawful = { byte_laws };

    ghost encodes = { byte_encodes };

    ghost measured = { refl };

    ghost sized = { (lit≤ tt, lit≤ tt) };

    fn zero() -> Byte {
        Byte { value: 0 }
    }

    fn one() -> Byte {
        Byte { value: 1 }
    }

    fn add(self, other: Byte) -> Byte {
        Byte {
            value: self.value ^ other.value,
        }
    }

    // The sum of `other` times x^k over the bits k of `self`.
    fn mul(self, other: Byte) -> Byte {
        let mut left = self.value;
        let mut shifted = other.value;
        let mut sum = 0;
        for _ in 0..8u32 {
            if left % 2 == 1 {
                sum ^= shifted;
            }
            left /= 2;
            shifted = times_x(shifted);
        }
        Byte { value: sum }
    }

    // Each element is its own opposite.
    fn neg(self) -> Byte {
        self
    }

    // x^2 x^4 .. x^128
    fn inv(self) -> Byte {
        let mut square = self;
        let mut inverse = Byte::one();
        for _ in 0..7u32 {
            square = square.mul(square);
            inverse = inverse.mul(square);
        }
        inverse
    }

    fn decode(code: &[u8]) -> Option<Byte> {
        let [value] = code else {
            return None;
        };
        Some(Byte { value: *value })
    }

    fn write(self, out: &mut [u8]) -> Result<usize, ByteFault> {
        bytes::put(&[self.value], out)
    }
}

impl Draw for Byte {
    ghost drawn = { byte };

    fn draw(v: u64) -> Byte {
        Byte {
            value: (v % 256) as u8,
        }
    }
}
