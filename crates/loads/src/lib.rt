// Reads a dairy's file of loads: text with one load to a line, its litres and then its fat.
#![tactic(auto)]

ghost use Rattle.std.specs.Prelude.{◌≡◌, Some};
ghost use Rattle.loads.specs.declared.LoadsFault.TheVariants.{Memory};
ghost use Rattle.loads.specs.Loads.{Reads};
ghost use Rattle.loads.specs.Faults.{fault_text};

mod line;
#[cfg(test)]
mod tests;

use bstr::BStr;
use line::{Malformed, line_load};
use std::alloc::{AllocFailed, Global};
use std::error::Error;
use std::fmt;

// A load of milk.
#[derive(Clone, Copy, PartialEq, Eq, Debug)]
pub struct Load {
    pub litres: u32,
    pub fat: u32,
}

// Why a text gives no loads.
#[derive(Clone, Copy, Debug)]
pub enum LoadsFault<'a> {
    // A line that is neither blank nor a load: its number, from 1, and its bytes.
    Malformed { line: usize, text: &'a [u8] },
    // There was no memory for the list.
    Memory,
}

impl<T: Drop> From<AllocFailed<T>> for LoadsFault<'_> {
    ghost from_gives = { λ _ r. r ≡ Memory };

    fn from(_refused: AllocFailed<T>) -> Self {
        LoadsFault::Memory
    }
}

// Bytes of the line that are no text show as U+FFFD.
impl fmt::Display for LoadsFault<'_> {
    ghost output = { λ fault. Some (fault_text fault) };

    fn fmt<W: fmt::Write>(&self, f: &mut fmt::Formatter<W>) -> fmt::Result {
        match *self {
            LoadsFault::Malformed { line, text } => {
                let text = BStr::new(text);
                write!(f, "line {line} is not `litres fat`: {text}")
            }
            LoadsFault::Memory => write!(f, "there is no memory left"),
        }
    }
}

impl Error for LoadsFault<'_> {}

// The loads of a text in their order, or its first malformed line. `Memory` is the answer only where the list could not grow.
pub fn read_loads<'a>(heap: Global, text: &'a [u8]) -> Result<Vec<Load>, LoadsFault<'a>>
    ensures { Reads text.now result }
{
    let mut loads = Vec::new(heap);
    for (before, line) in text.split(|byte| *byte == b'\n').enumerate() {
        // What a line says, case by case: `map_err` with `?` and an `if let` are no plainer.
        match line_load(line) {
            Ok(None) => {}
            Ok(Some(load)) => loads.push(load)?,
            Err(Malformed) => {
                return Err(LoadsFault::Malformed {
                    line: before + 1,
                    text: line,
                });
            }
        }
    }
    Ok(loads)
}
