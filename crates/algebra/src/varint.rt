// Counts as varints: seven bits a byte, lowest first, the top bit set on all but the last, in shortest form.
ghost use Rattle.std.specs.Prelude.{◌≡◌, ◌-◌, ◌≤◌, length, take};
ghost use Rattle.algebra.specs.Bytes.{Written, left, meant, Counts};
ghost use Rattle.algebra.specs.Varint.{varint as varint_of, read_count, AcceptsCounts};

use crate::bytes;
use crate::fault::ByteFault;
use crate::reader::Reader;

// The bytes of a count: the first `len`, ten at most. An array, and no `ArrayVec`, so that it is copied as all records are.
#[derive(Clone, Copy)]
pub struct Varint {
    pub bytes: [u8; 10],
    pub len: usize,
    ghost few: { len ≤ 10 },
}

pub fn encode(n: u64) -> Varint
    ensures value { take result.len result.bytes ≡ varint_of n }
    ensures len { result.len ≡ length (varint_of n) }
{
    let mut bytes = [0u8; 10];
    let mut len: usize = 0;
    let mut rest = n;
    while rest >= 128 {
        bytes[len] = (rest % 128) as u8 + 128;
        rest /= 128;
        len += 1;
    }
    bytes[len] = rest as u8;
    Varint {
        bytes,
        len: len + 1,
    }
}

// How many bytes the count takes.
pub fn size(n: u64) -> usize
    ensures value { result ≡ length (varint_of n) }
    ensures few { result ≤ 10 }
{
    encode(n).len
}

// Writes the count to the front of the output, and answers its length.
pub fn write(n: u64, out: &mut [u8]) -> Result<usize, ByteFault>
    ensures { Written (varint_of n) out.old out.new result }
{
    let code = encode(n);
    bytes::put(&code.bytes[..code.len], out)
}

// The count that begins the bytes, and how many it takes; `at` is the place that a refusal names, and no place in these bytes.
fn front(bytes: &[u8], at: usize) -> Result<(u32, usize), ByteFault>
    ensures value { result ≡ read_count at bytes.now }
    ensures accepts { AcceptsCounts bytes.now result }
{
    let mut n = 0u64;
    let mut scale = 1u64;
    for (i, byte) in bytes.iter().enumerate() {
        n += u64::from(*byte % 128) * scale;
        if *byte < 128 {
            if *byte == 0 && i > 0 {
                return Err(ByteFault::NotCount(at));
            }
            // `map_err` is shorter; the proof did not close over its closure.
            return match u32::try_from(n) {
                Ok(count) => Ok((count, i + 1)),
                Err(_) => Err(ByteFault::NotCount(at)),
            };
        }
        if i == 4 {
            return Err(ByteFault::NotCount(at));
        }
        scale *= 128;
    }
    Err(ByteFault::Ends(at))
}

// The next count; what follows is ignored.
pub fn read(input: &mut Reader) -> Result<u32, ByteFault>
    ensures value { Counts input.old input.new result (read_count input.old.at (left input.old)) }
    ensures accepts { AcceptsCounts (left input.old) (meant (λ n. (n, input.new.at - input.old.at)) result) }
{
    let (count, used) = front(input.left(), input.at())?;
    input.skip(used);
    Ok(count)
}
