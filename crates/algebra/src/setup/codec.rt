// A setup as bytes: Q, the count of its pairs, then the pairs G_i, H_i in turn.
ghost use Rattle.std.specs.Prelude.{◌≡◌};
ghost use Rattle.algebra.specs.Setups.{count as pairs};
ghost use Rattle.algebra.specs.SetupCode.{setup_size, WritesSetup, ReadsSetup};

use crate::fault::ByteFault;
use crate::reader::Reader;
use crate::run::Order;
use crate::setup::Setup;
use crate::space::Space;
use crate::{run, varint};

// The most pairs that a setup has.
const MOST_PAIRS: usize = 1048576;

impl<'a, G: Space> Setup<'a, G> {
    // How many bytes the setup takes.
    pub fn size(&self) -> usize
        ensures { result ≡ setup_size G.Space.codec (pairs self.now.elements.now) }
    {
        let n = self.count();
        G::SIZE + varint::size(n as u64) + 2 * n * G::SIZE
    }

    // Writes the setup to the front of the output, and answers its length.
    pub fn write(&self, out: &mut [u8]) -> Result<usize, ByteFault>
        ensures { WritesSetup G.Space.codec G.Space.means self.now.elements.now out.old out.new result }
    {
        let n = self.count();
        let q = self.product_generator();
        let size = self.size();
        if out.len() < size {
            return Err(ByteFault::Output);
        }
        // There is room for all, so that no part is refused. No refusal of writing has a place: a writer with an offset is no plainer.
        let _ = q.write(out);
        let count_at = G::SIZE;
        let _ = varint::write(n as u64, &mut out[count_at..]);
        let pairs_at = count_at + varint::size(n as u64);
        let _ = run::write_run(self.elements, 2 * n, Order::Halves(n), &mut out[pairs_at..]);
        Ok(size)
    }

    // Reads a setup of at most `highest` pairs into the front of the area; answers how many pairs it has, and how many bytes it takes. What follows is ignored.
    pub fn read(bytes: &[u8], highest: usize, area: &mut [G]) -> Result<(usize, usize), ByteFault>
        ensures { ReadsSetup G.Space.codec G.Space.means highest bytes.now area.old area.new result }
    {
        let mut input = Reader::new(bytes, 0);
        let q = input.element()?;
        let count_at = input.at();
        let n = varint::read(&mut input)? as usize;
        if n > highest.min(MOST_PAIRS) {
            return Err(ByteFault::TooMany(count_at));
        }
        if area.len() < 2 * n + 1 {
            return Err(ByteFault::Area(count_at));
        }
        area[2 * n] = q;
        run::read_run(&mut input, 2 * n, Order::Halves(n), area)?;
        Ok((n, input.at()))
    }
}
