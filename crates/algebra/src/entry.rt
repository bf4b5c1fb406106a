// The table of faults: a number, a layer and a place for each refusal.
ghost use Rattle.std.specs.Prelude.{◌≡◌, Some};
ghost use Rattle.algebra.specs.Faults.{layer_text};

use std::fmt;

// The layer that a fault belongs to.
#[derive(Clone, Copy, PartialEq, Eq, Debug)]
pub enum Layer {
    Bytes,
    Line,
    Argument,
}

impl fmt::Display for Layer {
    ghost output = { λ layer. Some (layer_text layer) };

    fn fmt<W: fmt::Write>(&self, f: &mut fmt::Formatter<W>) -> fmt::Result {
        f.write_str(match self {
            Layer::Bytes => "bytes",
            Layer::Line => "line",
            Layer::Argument => "argument",
        })
    }
}

// What the table has for a refusal.
#[derive(Clone, Copy, PartialEq, Eq, Debug)]
pub struct Entry {
    pub number: u8,
    pub layer: Layer,
    pub place: usize,
}

pub trait Refusal: Copy {
    ghost use Rattle.algebra.specs.declared.entry.Entry.{Entry};

    ghost listed: { Self → Entry };

    fn entry(self) -> Entry
        ensures { result ≡ listed self };

    // The number is how the table names a refusal to those outside: a rule of the project.
    final fn number(self) -> u8
        ensures { result ≡ (listed self).number }
    {
        self.entry().number
    }

    final fn layer(self) -> Layer
        ensures { result ≡ (listed self).layer }
    {
        self.entry().layer
    }

    final fn place(self) -> usize
        ensures { result ≡ (listed self).place }
    {
        self.entry().place
    }
}
