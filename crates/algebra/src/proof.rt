// A proof: what the prover sent, beside an area with L and R of each round.
ghost use Rattle.std.specs.Prelude.{◌≡◌, ◌<◌, true, IsTrue};
ghost use Rattle.algebra.specs.Bytes.{Written, meant};
ghost use Rattle.algebra.specs.Proofs.{finals_of, permits_rounds, encode_finals, read_finals, proof_size, WritesProof, ReadsProof};

use crate::fault::ByteFault;
use crate::field::Field;
use crate::reader::Reader;
use crate::run::Order;
use crate::space::Space;
use crate::{bytes, run, varint};

#[derive(Clone, Copy, PartialEq, Eq)]
pub struct Proof<F> {
    // Two elements for each round, L_1, R_1, L_2, R_2, .., are in an area beside: it is lent with each call, since a record has no memory of its own.
    pub rounds: u8,
    // The transcript's, after the last round.
    pub summary: [u8; 32],
    // What the vectors were folded to.
    pub a_final: F,
    pub b_final: F,
}

// Whether a proof over at most `highest` loads may have so many rounds.
fn permits(highest: usize, rounds: usize) -> bool
    ensures value { result ≡ permits_rounds highest rounds }
    ensures few { result ≡ true → rounds < 64 }
{
    rounds == 0 || rounds < 64 && 1usize << rounds <= highest
}

impl<F: Field> Proof<F> {
    // How many bytes the proof takes.
    pub fn size<G: Space<Scalar = F>>(&self) -> usize
        ensures { result ≡ proof_size F.Field.codec G.Space.codec self.now.rounds }
    {
        let n = self.rounds as usize;
        varint::size(n as u64) + 2 * n * G::SIZE + (32 + F::SIZE + F::SIZE)
    }

    // Writes the proof to the front of the output, and answers its length.
    pub fn write<G: Space<Scalar = F>>(
        &self,
        area: &[G],
        out: &mut [u8],
    ) -> Result<usize, ByteFault>
        ensures { WritesProof F.Field.codec G.Space.codec F.Field.means G.Space.means self.now area.now out.old out.new result }
    {
        let n = self.rounds as usize;
        if area.len() < 2 * n {
            return Err(ByteFault::Area(0));
        }
        let size = self.size::<G>();
        if out.len() < size {
            return Err(ByteFault::Output);
        }
        // There is room for all, so that no part is refused. No refusal of writing has a place: a writer with an offset is no plainer.
        let _ = varint::write(n as u64, out);
        let rounds_at = varint::size(n as u64);
        let _ = run::write_run(area, 2 * n, Order::InTurn, &mut out[rounds_at..]);
        let finals_at = rounds_at + 2 * n * G::SIZE;
        let _ = self.write_finals(&mut out[finals_at..]);
        Ok(size)
    }

    // Reads a proof over at most `highest` loads, with its rounds into the front of the area; answers it, and how many bytes it takes. What follows is ignored.
    pub fn read<G: Space<Scalar = F>>(
        bytes: &[u8],
        highest: usize,
        area: &mut [G],
    ) -> Result<(Proof<F>, usize), ByteFault>
        ensures { ReadsProof F.Field.codec G.Space.codec F.Field.means G.Space.means highest bytes.now area.old area.new result }
    {
        let mut input = Reader::new(bytes, 0);
        let n = varint::read(&mut input)? as usize;
        if !permits(highest, n) {
            return Err(ByteFault::TooMany(0));
        }
        if area.len() < 2 * n {
            return Err(ByteFault::Area(0));
        }
        run::read_run(&mut input, 2 * n, Order::InTurn, area)?;
        let proof = Proof::read_finals(&mut input, n as u8)?;
        Ok((proof, input.at()))
    }

    // What follows the rounds.
    fn read_finals(input: &mut Reader, rounds: u8) -> Result<Proof<F>, ByteFault>
        ensures { meant (λ p. (finals_of F.Field.means p, input.new.at)) result ≡ read_finals F.Field.codec rounds input.old.at input.old.bytes }
    {
        Ok(Proof {
            rounds,
            summary: input.array()?,
            a_final: input.element()?,
            b_final: input.element()?,
        })
    }

    // Whether both mean one proof, but for their areas: `==`, which has no contract of its own that speaks of meanings.
    pub fn same(&self, other: &Proof<F>) -> bool
        ensures yes { IsTrue result → finals_of F.Field.means self.now ≡ finals_of F.Field.means other.now }
        ensures back { finals_of F.Field.means self.now ≡ finals_of F.Field.means other.now → IsTrue result }
    {
        self == other
    }

    // Writes what follows the rounds to the front of the output.
    fn write_finals(&self, out: &mut [u8]) -> Result<usize, ByteFault>
        ensures { Written (encode_finals F.Field.codec self.now.summary (F.Field.means self.now.a_final) (F.Field.means self.now.b_final)) out.old out.new result }
    {
        let b_at = 32 + F::SIZE;
        let size = b_at + F::SIZE;
        if out.len() < size {
            return Err(ByteFault::Output);
        }
        // There is room for all, so that no part is refused. No refusal of writing has a place: a writer with an offset is no plainer.
        let _ = bytes::put(&self.summary, out);
        let _ = self.a_final.write(&mut out[32..]);
        let _ = self.b_final.write(&mut out[b_at..]);
        Ok(size)
    }
}
