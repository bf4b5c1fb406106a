// Sums over slices, each as far as both go. They take the partner by the index: a rule of the project.
ghost use Rattle.std.specs.Prelude.{◌≡◌, length};
ghost use Rattle.algebra.specs.Structures.{IsSpace, over_itself, with_multiples};
ghost use Rattle.algebra.specs.Folds.{SumsOfMixes};
ghost use Rattle.algebra.specs.Over.{space_over, numbers, elements};
ghost use Rattle.algebra.specs.Sums.{lin, dot as inner, products, powers};

use crate::field::Field;
use crate::space::Space;

// The inner product a₀ b₀ + a₁ b₁ + ..
pub fn dot<F: Field>(a: &[F], b: &[F]) -> F
    ensures { F.Field.means result ≡ inner F.Field.field (numbers F.Field.own a.now) (numbers F.Field.own b.now) }
{
    msm(a, b)
}

// The multi-scalar sum s₀ v₀ + s₁ v₁ + ..
pub fn msm<F: Field, G: Space<Scalar = F>>(scalars: &[F], points: &[G]) -> G
    ensures { G.Space.means result ≡ lin (space_over F.Field.own G.Space.own) (numbers F.Field.own scalars.now) (elements G.Space.own points.now) }
{
    let mut sum = G::zero();
    for (i, s) in scalars.iter().enumerate() {
        if i >= points.len() {
            break;
        }
        sum = sum.add(points[i].scale(*s));
    }
    sum
}

// The same with powers of y: s₀ v₀ + y s₁ v₁ + y² s₂ v₂ + ..
pub fn msm_powers<F: Field, G: Space<Scalar = F>>(y: F, scalars: &[F], points: &[G]) -> G
    ensures { G.Space.means result ≡ lin (space_over F.Field.own G.Space.own)
        (products F.Field.field (powers F.Field.field (F.Field.means y) (length scalars.now)) (numbers F.Field.own scalars.now))
        (elements G.Space.own points.now) }
{
    let mut sum = G::zero();
    let mut power = F::one();
    for (i, s) in scalars.iter().enumerate() {
        if i >= points.len() {
            break;
        }
        sum = sum.add(points[i].scale(power.mul(*s)));
        power = power.mul(y);
    }
    sum
}

// As a space over itself a field has its products for multiples: called where a proof needs it, it does nothing.
pub fn itself<F: Field>()
    ensures { with_multiples ⟦<F as Space>⟧.group (λ s. ⟦<F as Space>⟧.times (F.pick s)) ≡ over_itself F.Field.field }
{}

// The laws of a space in one record, and what they give of sums: called where a proof needs them, it does nothing.
pub fn laws<F: Field, G: Space<Scalar = F>>()
    ensures space { IsSpace F.Field.field (space_over F.Field.own G.Space.own) }
    ensures sums { SumsOfMixes F.Field.field (space_over F.Field.own G.Space.own) }
{
    G::scale_over_sum();
    G::scale_over_add();
    G::scale_over_mul();
    G::scale_by_one();
}
