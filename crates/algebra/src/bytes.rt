// Bytes and numbers: what encodings of elements are written and read by.
ghost use Rattle.std.specs.Prelude.{◌≡◌, ◌≤◌, length, MatchOption};
ghost use Rattle.algebra.specs.Bytes.{Written};
ghost use Rattle.algebra.specs.Numbered.{Digits};

use crate::fault::ByteFault;

// Writes the code to the front of the output.
pub fn put(code: &[u8], out: &mut [u8]) -> Result<usize, ByteFault>
    ensures { Written code.now out.old out.new result }
{
    let n = code.len();
    if out.len() < n {
        return Err(ByteFault::Output);
    }
    out[0..n].copy_from_slice(code);
    Ok(n)
}

// The number that `width` bytes are, highest first; none for more or fewer bytes, or for a width above seven.
// The width is what the field wants, and no part of the buffer; a constant of a trait cannot be the length of an array type.
pub fn number(code: &[u8], width: usize) -> Option<u64>
    ensures { MatchOption result (width ≤ 7 → ¬ (length code.now ≡ width)) (λ n. (width ≤ 7) × (length code.now ≡ width) × Digits width code.now n) }
{
    if width > 7 || code.len() != width {
        return None;
    }
    let mut n = 0u64;
    for byte in code {
        n = n * 256 + u64::from(*byte);
    }
    Some(n)
}
