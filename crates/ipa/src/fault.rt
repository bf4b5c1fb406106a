// What the argument refuses, each fault by number, layer and place.
ghost use Rattle.std.specs.Prelude.{◌≡◌, Some};
ghost use Rattle.ipa.specs.Faults.{argument_entry, argument_text};

use algebra::entry::{Entry, Layer, Refusal};
use std::error::Error;
use std::fmt;

#[derive(Clone, Copy, PartialEq, Eq, Debug)]
pub enum Fault {
    // The two vectors differ in length.
    Lengths,
    // Their length is not a power of two.
    NotPowerOfTwo,
    // The setup has fewer pairs than the vectors have entries.
    SmallSetup,
}

impl Refusal for Fault {
    ghost listed = { argument_entry };

    fn entry(self) -> Entry {
        let number = match self {
            Fault::Lengths => 20,
            Fault::NotPowerOfTwo => 21,
            Fault::SmallSetup => 22,
        };
        Entry {
            number,
            layer: Layer::Argument,
            place: 0,
        }
    }
}

impl fmt::Display for Fault {
    ghost output = { λ fault. Some (argument_text fault) };

    fn fmt<W: fmt::Write>(&self, f: &mut fmt::Formatter<W>) -> fmt::Result {
        f.write_str(match self {
            Fault::Lengths => "the two vectors differ in length",
            Fault::NotPowerOfTwo => "the number of loads is not a power of two",
            Fault::SmallSetup => "there are more loads than the setup has pairs",
        })
    }
}

impl Error for Fault {}
