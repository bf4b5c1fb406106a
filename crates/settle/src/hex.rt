// Bytes as hexadecimal text.
ghost use Rattle.std.specs.Prelude.{◌≡◌, ◌<◌, IfOk, string_bytes};
ghost use Rattle.settle.specs.Hex.{hex_digit, spaced};

use std::alloc::{AllocError, Global};

// Two digits for each byte, with a space before.
pub fn hex(heap: Global, bytes: &[u8]) -> Result<String, AllocError>
    ensures { IfOk result (λ s. string_bytes s ≡ spaced bytes.now) }
{
    let mut text = String::new(heap);
    for b in bytes {
        write!(text, " {b:02x}")?;
    }
    Ok(text)
}
