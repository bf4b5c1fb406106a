// Bytes that are read from front to back, one field behind the other.
ghost use Rattle.std.specs.Prelude.{◌≡◌, ◌+◌, ◌≤◌, max, length, IfOk};
ghost use Rattle.algebra.specs.Bytes.{Input, left, meant, Takes, read_one, read_byte, read_bytes};

use crate::fault::ByteFault;
use crate::space::Space;
use std::marker::Model;

// A refused field leaves the reader at its beginning, which is the place that the refusal names.
#[derive(Drop)]
pub struct Reader<'a> {
    bytes: &'a [u8],
    at: usize,
}

impl<'a> Model for Reader<'a> {
    ghost Value = { Input };

    ghost view = { λ r. record { bytes = r.bytes.now; at = r.at } };
}

impl<'a> Reader<'a> {
    // Reads from `at` on; past the end there is nothing to read.
    pub fn new(bytes: &'a [u8], at: usize) -> Reader<'a>
        ensures { result ≡ record { bytes = bytes.now; at = at } }
    {
        Reader { bytes, at }
    }

    // Where the next field begins.
    pub fn at(&self) -> usize
        ensures { result ≡ self.now.at }
    {
        self.at
    }

    // The bytes that are not yet read.
    pub fn left(&self) -> &'a [u8]
        ensures { result.now ≡ left self.now }
    {
        &self.bytes[self.at.min(self.bytes.len())..]
    }

    // The next n bytes, which are not read by this.
    pub fn peek(&self, n: usize) -> Result<&'a [u8], ByteFault>
        ensures value { meant (λ s. s.now) result ≡ read_bytes n self.now.at (left self.now) }
        ensures within { IfOk result (λ s. self.now.at + n ≤ max self.now.at (length self.now.bytes)) }
    {
        self.left().get(..n).ok_or(ByteFault::Ends(self.at))
    }

    // Goes on behind n bytes that are there.
    pub(crate) fn skip(&mut self, n: usize)
        requires { self.old.at + n ≤ max self.old.at (length self.old.bytes) }
        ensures { self.new ≡ record { bytes = self.old.bytes; at = self.old.at + n } }
    {
        *self = Reader {
            at: self.at + n,
            ..*self
        };
    }

    // The next n bytes.
    pub fn take(&mut self, n: usize) -> Result<&'a [u8], ByteFault>
        ensures value { meant (λ s. s.now) result ≡ read_bytes n self.old.at (left self.old) }
        ensures after { Takes n self.old self.new result }
    {
        let front = self.peek(n)?;
        self.skip(n);
        Ok(front)
    }

    pub fn byte(&mut self) -> Result<u8, ByteFault>
        ensures value { result ≡ read_byte self.old.at (left self.old) }
        ensures after { Takes 1 self.old self.new result }
    {
        Ok(self.take(1)?[0])
    }

    // The next N bytes, by value.
    pub fn array<const N: usize>(&mut self) -> Result<[u8; N], ByteFault>
        ensures value { result ≡ read_bytes N self.old.at (left self.old) }
        ensures after { Takes N self.old self.new result }
    {
        let mut array = [0; N];
        array.copy_from_slice(self.take(N)?);
        Ok(array)
    }

    // The next element of a space, or of a field.
    pub fn element<G: Space>(&mut self) -> Result<G, ByteFault>
        ensures value { meant G.Space.means result ≡ read_one G.Space.codec self.old.at (left self.old) }
        ensures after { Takes G.Space.SIZE self.old self.new result }
    {
        let element = G::decode(self.peek(G::SIZE)?).ok_or(ByteFault::NotElement(self.at))?;
        self.skip(G::SIZE);
        Ok(element)
    }
}
