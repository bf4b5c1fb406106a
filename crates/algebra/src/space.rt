// Spaces: elements that can be added, and multiplied by the numbers of a field.
ghost use Rattle.std.specs.Prelude.{◌≡◌, ℕ, ◌≤◌, ◌↔◌, true, option_map};
ghost use Rattle.algebra.specs.Structures.{GroupOps, IsGroup, with_multiples, OverSum, OverAdd, OverMul, ByOne};
ghost use Rattle.algebra.specs.Codec.{Codec, IsCodec};
ghost use Rattle.algebra.specs.Bytes.{Written};

use crate::fault::ByteFault;
use crate::field::Field;

mod itself;

// A value means an element of a commutative group with multiples by the elements of a field.
// `Field` has ten of these members word for word: the data of a trait cannot speak of the elements of a trait above it.
pub trait Space: Copy + Eq {
    // The field of its scalars.
    type Scalar: Field;

    // How many bytes one element takes, from 1 to 512.
    const SIZE: usize;

    ghost SIZE: { ℕ };

    ghost Elem: { Type 0 };

    ghost means: { Self → Elem };

    ghost group: { GroupOps Elem };

    // Multiples by a value of the scalar; cited at the value picked for an element, so that they depend on the element alone.
    ghost times: { Self.Scalar → Elem → Elem };

    ghost codec: { Codec Elem };

    fn zero() -> Self
        ensures { means result ≡ group.zero };

    fn add(self, other: Self) -> Self
        ensures { means result ≡ group.add (means self) (means other) };

    fn neg(self) -> Self
        ensures { means result ≡ group.neg (means self) };

    fn scale(self, s: Self::Scalar) -> Self
        ensures { means result ≡ times (Self.Scalar.Field.pick (Self.Scalar.Field.means s)) (means self) };

    // The element whose encoding the bytes are; none for all others.
    fn decode(code: &[u8]) -> Option<Self>
        ensures { option_map means result ≡ codec.decode code.now };

    // Writes the encoding to the front of the output, and answers its length.
    fn write(self, out: &mut [u8]) -> Result<usize, ByteFault>
        ensures { Written (codec.encode (means self)) out.old out.new result };

    // The laws that join the space to its scalars: called where a proof needs them, they do nothing.

    // s (v + w) = s v + s w
    fn scale_over_sum()
        ensures { OverSum Self.Scalar.Field.field (with_multiples group (λ s. times (Self.Scalar.Field.pick s))) };

    // (s + t) v = s v + t v
    fn scale_over_add()
        ensures { OverAdd Self.Scalar.Field.field (with_multiples group (λ s. times (Self.Scalar.Field.pick s))) };

    // (s × t) v = s (t v)
    fn scale_over_mul()
        ensures { OverMul Self.Scalar.Field.field (with_multiples group (λ s. times (Self.Scalar.Field.pick s))) };

    // 1 v = v
    fn scale_by_one()
        ensures { ByOne Self.Scalar.Field.field (with_multiples group (λ s. times (Self.Scalar.Field.pick s))) };

    // Values are equal where they mean one element.
    ghost equal: { (x y : Self) → (Self.PartialEq.eq x y ≡ true) ↔ (means x ≡ means y) };

    ghost lawful: { IsGroup group };

    ghost encodes: { IsCodec codec };

    ghost measured: { codec.size ≡ SIZE };

    ghost sized: { (1 ≤ codec.size) × (codec.size ≤ 512) };
}
