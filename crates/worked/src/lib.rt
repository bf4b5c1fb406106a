// The worked cases: proved of the definitions in one statement, and run as tests of the code.
#![tactic(auto)]

ghost use Rattle.std.specs.Prelude.{◌≡◌};
ghost use Rattle.worked.specs.Worked.{WorkedCases};

use bench::squares::setup::bench_elements;

#[cfg(test)]
mod tests;

// The bench's Q, which is the last of the worked cases; its contract has them all.
pub fn worked_cases() -> u64
    ensures value { result ≡ 332 }
    ensures cases { WorkedCases }
{
    let [.., last] = bench_elements();
    last.value()
}
