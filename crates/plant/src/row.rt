// Rows of four numbers over any field, by place, written in order.
ghost use Rattle.std.specs.Prelude.{◌≡◌, ◌*◌, option_map};
ghost use Rattle.std.proofs.Common.{rules};
ghost use Rattle.plant.specs.Rows.{RowOf, row_meant, rows, scale_row, row_codec, joined};
ghost use Rattle.plant.specs.RowBytes.{row_encodes, row_equal};

use algebra::fault::ByteFault;
use algebra::field::Field;
use algebra::space::Space;

#[derive(Clone, Copy, PartialEq, Eq)]
pub struct Row<F> {
    pub w: F,
    pub x: F,
    pub y: F,
    pub z: F,
}

// The two elements whose encodings the bytes are, one behind the other.
fn pair<F: Field>(code: &[u8]) -> Option<(F, F)>
    ensures { option_map (λ (x, y). (F.Field.means x, F.Field.means y)) result ≡ (joined F.Field.codec F.Field.codec).decode code.now }
{
    let (first, second) = code.split_at_checked(F::SIZE)?;
    Some((F::decode(first)?, F::decode(second)?))
}

impl<F: Field> Space for Row<F> {
    type Scalar = F;

    const SIZE: usize = 4 * F::SIZE;

    ghost SIZE = { 4 * F.Field.SIZE };

    ghost Elem = { RowOf F.Field.Elem };

    ghost means = { row_meant F.Field.means };

    ghost group = { rows F.Field.field };

    ghost times = { λ s. scale_row F.Field.field (F.Field.means s) };

    ghost codec = { row_codec F.Field.codec };

    ghost equal = { row_equal F.eq F.Field.means F.Field.equal };

    ghost lawful = { Prim.search rules };

    ghost encodes = { row_encodes F.Field.codec F.Field.encodes };

    ghost measured = { Prim.search rules };

    ghost sized = { Prim.search rules };

    fn zero() -> Row<F> {
        Row {
            w: F::zero(),
            x: F::zero(),
            y: F::zero(),
            z: F::zero(),
        }
    }

    fn add(self, other: Row<F>) -> Row<F> {
        Row {
            w: self.w.add(other.w),
            x: self.x.add(other.x),
            y: self.y.add(other.y),
            z: self.z.add(other.z),
        }
    }

    fn neg(self) -> Row<F> {
        Row {
            w: self.w.neg(),
            x: self.x.neg(),
            y: self.y.neg(),
            z: self.z.neg(),
        }
    }

    fn scale(self, s: F) -> Row<F> {
        Row {
            w: s.mul(self.w),
            x: s.mul(self.x),
            y: s.mul(self.y),
            z: s.mul(self.z),
        }
    }

    fn decode(code: &[u8]) -> Option<Row<F>> {
        let (front, back) = code.split_at_checked(2 * F::SIZE)?;
        let (w, x) = pair(front)?;
        let (y, z) = pair(back)?;
        Some(Row { w, x, y, z })
    }

    fn write(self, out: &mut [u8]) -> Result<usize, ByteFault> {
        // With room for all four, none of them is refused.
        if out.len() < Self::SIZE {
            return Err(ByteFault::Output);
        }
        let mut at = 0;
        for number in [&self.w, &self.x, &self.y, &self.z] {
            at += number.write(&mut out[at..])?;
        }
        Ok(at)
    }

    fn scale_over_sum() {}

    fn scale_over_add() {}

    fn scale_over_mul() {}

    fn scale_by_one() {}
}
