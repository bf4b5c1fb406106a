// What is refused: each fault by number, layer and place.
ghost use Rattle.std.specs.Prelude.{◌≡◌, Some};
ghost use Rattle.algebra.specs.Faults.{byte_entry, byte_text, setup_entry, setup_text};

use crate::entry::{Entry, Layer, Refusal};
use std::error::Error;
use std::fmt;

// A refusal to read or write, with the offset at which the refused field begins.
#[derive(Clone, Copy, PartialEq, Eq, Debug)]
pub enum ByteFault {
    // The input ends inside the field.
    Ends(usize),
    // The bytes are no element.
    NotElement(usize),
    // The count is not a shortest varint below 2^32.
    NotCount(usize),
    // The count is above the permitted.
    TooMany(usize),
    // An area is too short.
    Area(usize),
    // The output is shorter than the encoding.
    Output,
}

impl Refusal for ByteFault {
    ghost listed = { byte_entry };

    fn entry(self) -> Entry {
        let (number, place) = match self {
            ByteFault::Ends(at) => (1, at),
            ByteFault::NotElement(at) => (2, at),
            ByteFault::NotCount(at) => (3, at),
            ByteFault::TooMany(at) => (4, at),
            ByteFault::Area(at) => (5, at),
            ByteFault::Output => (6, 0),
        };
        Entry {
            number,
            layer: Layer::Bytes,
            place,
        }
    }
}

impl Error for ByteFault {}

impl fmt::Display for ByteFault {
    ghost output = { λ fault. Some (byte_text fault) };

    fn fmt<W: fmt::Write>(&self, f: &mut fmt::Formatter<W>) -> fmt::Result {
        f.write_str(match self {
            ByteFault::Ends(_) => "the input ends inside a field",
            ByteFault::NotElement(_) => "the bytes are no element",
            ByteFault::NotCount(_) => "the count is not a shortest varint below 2^32",
            ByteFault::TooMany(_) => "the count is above what is permitted",
            ByteFault::Area(_) => "the area is too short",
            ByteFault::Output => "the output is shorter than the encoding",
        })
    }
}

// A row of elements that is no setup.
#[derive(Clone, Copy, PartialEq, Eq, Debug)]
pub enum SetupFault {
    // The row is even in length, or longer than 2,097,153.
    Row,
}

impl Refusal for SetupFault {
    ghost listed = { setup_entry };

    fn entry(self) -> Entry {
        let SetupFault::Row = self;
        Entry {
            number: 23,
            layer: Layer::Argument,
            place: 0,
        }
    }
}

impl Error for SetupFault {}

impl fmt::Display for SetupFault {
    ghost output = { λ fault. Some (setup_text fault) };

    fn fmt<W: fmt::Write>(&self, f: &mut fmt::Formatter<W>) -> fmt::Result {
        let SetupFault::Row = self;
        f.write_str("the row is no setup")
    }
}
