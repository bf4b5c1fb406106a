// A field is a space over itself: its multiples are its products.
ghost use Rattle.std.proofs.Common.{rules};
ghost use Rattle.algebra.specs.Structures.{additive};

use crate::fault::ByteFault;
use crate::field::Field;
use crate::space::Space;

impl<F: Field> Space for F {
    type Scalar = F;

    const SIZE: usize = F::SIZE;

    ghost SIZE = { F.Field.SIZE };

    ghost Elem = { F.Field.Elem };

    ghost means = { F.Field.means };

    ghost group = { additive F.Field.field };

    ghost times = { λ s. F.Field.field.mul (F.Field.means s) };

    ghost codec = { F.Field.codec };

    ghost equal = { F.Field.equal };

    ghost lawful = { record { add_assoc = F.Field.lawful.add_assoc; add_comm = F.Field.lawful.add_comm; add-zero = F.Field.lawful.add-zero; add-neg = F.Field.lawful.add-neg } };

    ghost encodes = { F.Field.encodes };

    ghost measured = { F.Field.measured };

    ghost sized = { Prim.search rules };

    fn zero() -> F {
        F::zero()
    }

    fn add(self, other: F) -> F {
        Field::add(self, other)
    }

    fn neg(self) -> F {
        Field::neg(self)
    }

    fn scale(self, s: F) -> F {
        Field::mul(s, self)
    }

    fn decode(code: &[u8]) -> Option<F> {
        <F as Field>::decode(code)
    }

    fn write(self, out: &mut [u8]) -> Result<usize, ByteFault> {
        Field::write(self, out)
    }

    fn scale_over_sum() {}

    fn scale_over_add() {}

    fn scale_over_mul() {}

    fn scale_by_one() {}
}
