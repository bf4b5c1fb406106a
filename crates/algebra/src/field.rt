// Fields: numbers that can be added, multiplied and inverted, and numbers drawn from 64 bits.
ghost use Rattle.std.specs.Prelude.{◌≡◌, ℕ, ◌≤◌, ◌↔◌, true, option_map};
ghost use Rattle.algebra.specs.Structures.{FieldOps, IsField};
ghost use Rattle.algebra.specs.Codec.{Codec, IsCodec};
ghost use Rattle.algebra.specs.Bytes.{Written};

use crate::fault::ByteFault;

// A value means an element of a field; several values may mean one element.
pub trait Field: Copy + Eq {
    // How many bytes one element takes, from 1 to 64.
    const SIZE: usize;

    ghost SIZE: { ℕ };

    ghost Elem: { Type 0 };

    ghost means: { Self → Elem };

    // A value for each element.
    ghost pick: { Elem → Self };

    ghost field: { FieldOps Elem };

    ghost codec: { Codec Elem };

    fn zero() -> Self
        ensures { means result ≡ field.zero };

    fn one() -> Self
        ensures { means result ≡ field.one };

    fn add(self, other: Self) -> Self
        ensures { means result ≡ field.add (means self) (means other) };

    fn mul(self, other: Self) -> Self
        ensures { means result ≡ field.mul (means self) (means other) };

    fn neg(self) -> Self
        ensures { means result ≡ field.neg (means self) };

    // Of zero it is zero.
    fn inv(self) -> Self
        ensures { means result ≡ field.inv (means self) };

    // The element whose encoding the bytes are; none for all others.
    fn decode(code: &[u8]) -> Option<Self>
        ensures { option_map means result ≡ codec.decode code.now };

    // Writes the encoding to the front of the output, and answers its length.
    fn write(self, out: &mut [u8]) -> Result<usize, ByteFault>
        ensures { Written (codec.encode (means self)) out.old out.new result };

    // Values are equal where they mean one element.
    ghost equal: { (x y : Self) → (Self.PartialEq.eq x y ≡ true) ↔ (means x ≡ means y) };

    ghost picked: { (x : Elem) → means (pick x) ≡ x };

    ghost lawful: { IsField field };

    ghost encodes: { IsCodec codec };

    ghost measured: { codec.size ≡ SIZE };

    ghost sized: { (1 ≤ codec.size) × (codec.size ≤ 64) };
}

// A field whose elements can be drawn: a 64-bit number becomes an element fixed by it alone.
pub trait Draw: Field {
    ghost drawn: { ℕ → Self };

    fn draw(v: u64) -> Self
        ensures { Self.Field.means result ≡ Self.Field.means (drawn v) };
}
