// Why the program stops, as one line of text.
use crate::day::DayFault;
use algebra::entry::{Entry, Refusal};
use algebra::fault::SetupFault;
use loads::LoadsFault;
use std::alloc::AllocError;
use std::{fmt, io};

#[derive(Drop)]
pub enum Stop<'a> {
    // Too many arguments.
    Usage,
    Loads(LoadsFault<'a>),
    Day(DayFault),
    Setup(SetupFault),
    // What was written did not read back as the same claim.
    Differs,
    Memory,
    Io(io::Error),
}

impl From<AllocError> for Stop<'_> {
    fn from(_error: AllocError) -> Self {
        Stop::Memory
    }
}

impl<'a> From<LoadsFault<'a>> for Stop<'a> {
    fn from(fault: LoadsFault<'a>) -> Stop<'a> {
        Stop::Loads(fault)
    }
}

impl From<DayFault> for Stop<'_> {
    fn from(fault: DayFault) -> Self {
        Stop::Day(fault)
    }
}

impl From<SetupFault> for Stop<'_> {
    fn from(fault: SetupFault) -> Self {
        Stop::Setup(fault)
    }
}

impl From<io::Error> for Stop<'_> {
    fn from(error: io::Error) -> Self {
        Stop::Io(error)
    }
}

// A refusal with its entry in the table of faults.
pub fn refused<R: Refusal + fmt::Display, W: fmt::Write>(
    fault: &R,
    f: &mut fmt::Formatter<W>,
) -> fmt::Result {
    let Entry {
        number,
        layer,
        place,
    } = fault.entry();
    write!(
        f,
        "refused with {number} (layer {layer}, place {place}): {fault}"
    )
}

impl fmt::Display for Stop<'_> {
    fn fmt<W: fmt::Write>(&self, f: &mut fmt::Formatter<W>) -> fmt::Result {
        match self {
            Stop::Usage => write!(f, "give no argument, or the path of one file of loads"),
            Stop::Loads(fault) => write!(f, "{fault}"),
            Stop::Day(fault) => write!(f, "{fault}"),
            Stop::Setup(fault) => refused(fault, f),
            Stop::Differs => write!(f, "the claim read back is not the claim written"),
            Stop::Memory => write!(f, "there is no memory left"),
            Stop::Io(error) => write!(f, "{error}"),
        }
    }
}
