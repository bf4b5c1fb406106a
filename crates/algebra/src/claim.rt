// A claim: litres times fat points, summed over the loads, gives one total under one commitment.
ghost use Rattle.std.specs.Prelude.{◌≡◌, IsTrue};
ghost use Rattle.algebra.specs.Bytes.{Written};
ghost use Rattle.algebra.specs.Claims.{read_claim, claim_size, AcceptsClaims};
ghost use Rattle.algebra.specs.Over.{claim_meant, claim_code, read_meant};

use crate::fault::ByteFault;
use crate::field::Field;
use crate::reader::Reader;
use crate::space::Space;

#[derive(Clone, Copy, PartialEq, Eq)]
pub struct Claim<F, G> {
    // P, which commits to both vectors.
    pub commitment: G,
    // c, their inner product.
    pub product: F,
    // What the second vector is weighted by, power by power.
    pub y: F,
    // The vectors have 2^log_len entries.
    pub log_len: u8,
}

impl<F: Field, G: Space<Scalar = F>> Claim<F, G> {
    // How many bytes a claim takes.
    pub fn size() -> usize
        ensures { result ≡ claim_size F.Field.codec G.Space.codec }
    {
        G::SIZE + F::SIZE + F::SIZE + 1
    }

    // Writes the claim to the front of the output, and answers its length.
    pub fn write(&self, out: &mut [u8]) -> Result<usize, ByteFault>
        ensures { Written (claim_code F.Field.own G.Space.own self.now) out.old out.new result }
    {
        if out.len() < Self::size() {
            return Err(ByteFault::Output);
        }
        // There is room for all, so that no part is refused. No refusal of writing has a place: a writer with an offset is no plainer.
        let _ = self.commitment.write(out);
        let product_at = G::SIZE;
        let _ = self.product.write(&mut out[product_at..]);
        let y_at = product_at + F::SIZE;
        let _ = self.y.write(&mut out[y_at..]);
        let log_len_at = y_at + F::SIZE;
        out[log_len_at] = self.log_len;
        Ok(log_len_at + 1)
    }

    // The claim that begins the bytes, and how many it takes; what follows is ignored.
    pub fn read(bytes: &[u8]) -> Result<(Claim<F, G>, usize), ByteFault>
        ensures value { read_meant F.Field.own G.Space.own result ≡ read_claim F.Field.codec G.Space.codec bytes.now }
        ensures accepts { AcceptsClaims F.Field.codec G.Space.codec bytes.now (read_meant F.Field.own G.Space.own result) }
    {
        let mut input = Reader::new(bytes, 0);
        let claim = Claim {
            commitment: input.element()?,
            product: input.element()?,
            y: input.element()?,
            log_len: input.byte()?,
        };
        Ok((claim, input.at()))
    }

    // Whether both mean one claim: `==`, which has no contract of its own that speaks of meanings.
    pub fn same(&self, other: &Claim<F, G>) -> bool
        ensures yes { IsTrue result → claim_meant F.Field.own G.Space.own self.now ≡ claim_meant F.Field.own G.Space.own other.now }
        ensures back { claim_meant F.Field.own G.Space.own self.now ≡ claim_meant F.Field.own G.Space.own other.now → IsTrue result }
    {
        self == other
    }
}
