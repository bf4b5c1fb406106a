// A day's loads as vectors, and the claim that is true of them.
ghost use Rattle.std.specs.Prelude.{◌≡◌, ℕ};
ghost use Rattle.settle.specs.declared.day.DayFault.TheVariants.{Claim as Declined, Memory};
ghost use Rattle.settle.specs.Day.{total_of, Converts, Settles};

use crate::stop::refused;
use algebra::claim::Claim;
use algebra::setup::Setup;
use bench::squares::Square;
use ipa::fault::Fault;
use ipa::witness::new_with_claim;
use loads::Load;
use modular::mod251::Mod251;
use std::alloc::{AllocFailed, Global};
use std::fmt;

// The litres and the fat points of the loads, in their order: two vectors, since the argument takes two.
#[derive(Drop)]
pub struct Vectors {
    pub litres: Vec<Mod251>,
    pub fat: Vec<Mod251>,
}

// Why there is no claim.
#[derive(Clone, Copy)]
pub enum DayFault {
    // The load, counted from 1, has a number beyond the field.
    Beyond(usize),
    // The argument refused the vectors.
    Claim(Fault),
    // There was no memory for the vectors.
    Memory,
}

impl fmt::Display for DayFault {
    fn fmt<W: fmt::Write>(&self, f: &mut fmt::Formatter<W>) -> fmt::Result {
        match self {
            DayFault::Beyond(load) => write!(
                f,
                "load {load} has a number above 250, the highest at the bench"
            ),
            DayFault::Claim(fault) => refused(fault, f),
            DayFault::Memory => write!(f, "there is no memory left"),
        }
    }
}

impl<T: Drop> From<AllocFailed<T>> for DayFault {
    ghost from_gives = { λ _ r. r ≡ Memory };

    fn from(_refused: AllocFailed<T>) -> DayFault {
        DayFault::Memory
    }
}

impl From<Fault> for DayFault {
    ghost from_gives = { λ f r. r ≡ Declined f };

    fn from(fault: Fault) -> DayFault {
        DayFault::Claim(fault)
    }
}

// Litres times fat points, summed over the loads as plain integers.
pub fn total(loads: &[Load]) -> u128
    ensures { result ≡ total_of loads.now }
{
    loads
        .iter()
        .map(|load| u128::from(load.litres) * u128::from(load.fat))
        .sum()
}

pub fn convert(heap: Global, loads: &[Load]) -> Result<Vectors, DayFault>
    ensures { Converts loads.now result }
{
    let mut litres = Vec::new(heap);
    let mut fat = Vec::new(heap);
    for (i, load) in loads.iter().enumerate() {
        let beyond = DayFault::Beyond(i + 1);
        litres.push(Mod251::new(u64::from(load.litres)).ok_or(beyond)?)?;
        fat.push(Mod251::new(u64::from(load.fat)).ok_or(beyond)?)?;
    }
    Ok(Vectors { litres, fat })
}

// The claim of the day's total, under the setup.
pub fn claim_day(
    heap: Global,
    setup: &Setup<Square>,
    loads: &[Load],
    y: Mod251,
) -> Result<Claim<Mod251, Square>, DayFault>
    ensures { Settles setup.now.elements.now loads.now y result }
{
    let day = convert(heap, loads)?;
    Ok(new_with_claim(setup, day.litres.as_slice(), day.fat.as_slice(), y)?)
}
