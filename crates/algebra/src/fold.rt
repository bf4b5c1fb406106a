// Slices changed entry by entry: weighed by powers, and folded in place, the upper part onto the lower part.
ghost use Rattle.std.specs.Prelude.{◌≡◌, length, drop};
ghost use Rattle.algebra.specs.Structures.{over_itself};
ghost use Rattle.algebra.specs.Over.{space_over, numbers, elements};
ghost use Rattle.algebra.specs.Folds.{folded, multiples, written_over};
ghost use Rattle.algebra.specs.Sums.{powers};

use crate::field::Field;
use crate::space::Space;

// y^i times element i is written over entry i of the output, as far as both go.
// By index: after `for (x, value) in out.iter_mut().zip(values)` a proof knows nothing of the output.
pub fn weigh<F: Field, G: Space<Scalar = F>>(y: F, values: &[G], out: &mut [G])
    ensures value { elements G.Space.own out.new
        ≡ written_over (multiples (space_over F.Field.own G.Space.own) (powers F.Field.field (F.Field.means y) (length values.now)) (elements G.Space.own values.now)) (elements G.Space.own out.old) }
    ensures rest { drop (length values.now) out.new ≡ drop (length values.now) out.old }
{
    let mut power = F::one();
    for (i, value) in values.iter().enumerate() {
        if i >= out.len() {
            break;
        }
        out[i] = value.scale(power);
        power = power.mul(y);
    }
}

// Entry i below `mid` becomes u times itself plus v times entry mid + i, which counts as zero past the end.
// By index, as `weigh`.
pub fn fold<F: Field, G: Space<Scalar = F>>(values: &mut [G], mid: usize, u: F, v: F)
    ensures value { elements G.Space.own values.new ≡ folded (space_over F.Field.own G.Space.own) (F.Field.means u) (F.Field.means v) mid (elements G.Space.own values.old) }
    ensures rest { drop mid values.new ≡ drop mid values.old }
{
    let (low, high) = values.split_at_mut(mid.min(values.len()));
    for (i, x) in low.iter_mut().enumerate() {
        let scaled = x.scale(u);
        *x = match high.get(i) {
            Some(y) => scaled.add(y.scale(v)),
            None => scaled,
        };
    }
}
