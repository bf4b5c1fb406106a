// Runs of elements: written one behind the other, read into the places of an area.
ghost use Rattle.std.specs.Prelude.{◌≡◌, ℕ, ◌<◌, ◌≤◌, map, length};
ghost use Rattle.algebra.specs.Bytes.{Written};
ghost use Rattle.algebra.specs.Runs.{slot as place, ReadsRun, encode_run, in_order};
ghost use Rattle.algebra.specs.Over.{elements};

use crate::fault::ByteFault;
use crate::reader::Reader;
use crate::space::Space;

// In which order the places of an area are written.
// Not a closure: both orders are named in the contracts of all that reads or writes an area.
#[derive(Clone, Copy)]
pub enum Order {
    // As they stand.
    InTurn,
    // The first of n places, the first behind them, the second, the second behind them, and so on.
    Halves(usize),
}

impl Order {
    // The place of the element that is written as number j.
    pub(crate) fn slot(self, j: usize) -> usize
        requires { place self j < 18446744073709551616 }
        ensures { result ≡ place self j }
    {
        match self {
            Order::InTurn => j,
            Order::Halves(n) => j % 2 * n + j / 2,
        }
    }
}

// Reads `count` elements into their places.
// By number: two halves in turn are `first.iter_mut().zip(second)`, after which a proof knows nothing of them, as in `weigh`.
pub(crate) fn read_run<G: Space>(
    input: &mut Reader,
    count: usize,
    order: Order,
    area: &mut [G],
) -> Result<(), ByteFault>
    requires { (j : ℕ) → j < count → place order j < length area.old }
    ensures { ReadsRun G.Space.codec G.Space.means order count input.old input.new area.old area.new result }
{
    for j in 0..count {
        area[order.slot(j)] = input.element()?;
    }
    Ok(())
}

// Writes `count` elements from their places to the front of the output, and answers their length.
// By number, as they are read: one contract says for both where element j is.
pub(crate) fn write_run<G: Space>(
    area: &[G],
    count: usize,
    order: Order,
    out: &mut [u8],
) -> Result<usize, ByteFault>
    requires few { count ≤ 2097152 }
    requires within { (j : ℕ) → j < count → place order j < length area.now }
    ensures { Written (encode_run G.Space.codec (elements G.Space.own (in_order order 0 count area.now))) out.old out.new result }
{
    if out.len() < count * G::SIZE {
        return Err(ByteFault::Output);
    }
    let mut end = 0;
    for j in 0..count {
        // There is room for all, so that no element is refused.
        let _ = area[order.slot(j)].write(&mut out[end..]);
        end += G::SIZE;
    }
    Ok(end)
}
