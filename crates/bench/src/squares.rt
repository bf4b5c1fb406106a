// The squares modulo 503 as a space over the integers modulo 251: sums are products, and s times v is v^s.
ghost use Rattle.std.specs.Prelude.{◌≡◌, ◌%◌, ◌^◌, false, refl, MatchOption};
ghost use Rattle.std.proofs.Common.{lit≤};
ghost use Rattle.algebra.specs.Modular.{residue};
ghost use Rattle.algebra.proofs.BigEndian.{numbers_encode};
ghost use Rattle.bench.specs.Squares.{Square as Elem503, square, squares as group503, power as powers, is_square, square_at, codec503};
ghost use Rattle.bench.specs.SquareLaws.{squares_group, square_numbers, by_value};
ghost use Rattle.algebra.proofs.Residues.{equal_by};

use algebra::bytes;
use algebra::fault::ByteFault;
use algebra::field::{Draw, Field};
use algebra::space::Space;
use modular::mod251::Mod251;
use modular::mod503::Mod503;
use std::marker::Model;

pub mod setup;

#[derive(Clone, Copy, PartialEq, Eq)]
pub struct Square {
    value: Mod503,
    ghost unit: { value.value ^ 251 % 503 ≡ 1 },
}

impl Model for Square {
    ghost Value = { Elem503 };

    ghost view = { λ s. square s.value.value s.value.below s.unit };

    ghost inverse = { λ x. record { value = residue x.value x.below; unit = x.unit } };
}

impl Square {
    // The element that the number is, if it is one. As in the fields, and no `TryFrom`: its error would say no more.
    pub fn new(value: u64) -> Option<Square>
        ensures { MatchOption result (is_square value ≡ false) (λ x. x.value ≡ value) }
    {
        let value = Mod503::new(value)?;
        if value.pow(251) != Mod503::one() {
            return None;
        }
        Some(Square { value })
    }

    pub fn value(self) -> u64
        ensures { result ≡ self.value }
    {
        self.value.value()
    }
}

impl Space for Square {
    type Scalar = Mod251;

    const SIZE: usize = 2;

    ghost SIZE = { 2 };

    ghost Elem = { Elem503 };

    ghost means = { λ x. x };

    ghost group = { group503 };

    ghost times = { λ s. powers s.value };

    ghost codec = { codec503 };

    ghost equal = { equal_by (λ x. x.value) by_value };

    ghost lawful = { squares_group };

    ghost encodes = { numbers_encode 2 (λ (x : Elem503). x.value) square_at square_numbers };

    ghost measured = { refl };

    ghost sized = { (lit≤ tt, lit≤ tt) };

    fn zero() -> Square {
        Square {
            value: Mod503::draw(1),
        }
    }

    fn add(self, other: Square) -> Square {
        Square {
            value: self.value.mul(other.value),
        }
    }

    fn neg(self) -> Square {
        Square {
            value: self.value.pow(250),
        }
    }

    fn scale(self, s: Mod251) -> Square {
        Square {
            value: self.value.pow(s.value()),
        }
    }

    fn decode(code: &[u8]) -> Option<Square> {
        Square::new(bytes::number(code, Self::SIZE)?)
    }

    fn write(self, out: &mut [u8]) -> Result<usize, ByteFault> {
        Field::write(self.value, out)
    }

    fn scale_over_sum() {}

    fn scale_over_add() {}

    fn scale_over_mul() {}

    fn scale_by_one() {}
}
