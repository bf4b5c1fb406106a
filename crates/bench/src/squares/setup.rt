// The setup for the bench: the squares of 2 to 66.
ghost use Rattle.std.specs.Prelude.{◌≡◌, ◌<◌, map};
ghost use Rattle.bench.specs.Squares.{Square as Element};
ghost use Rattle.bench.specs.Bench.{bench_value, bench_values};

use crate::squares::Square;
use algebra::field::Draw;
use modular::mod503::Mod503;
use std::array;

pub fn bench_elements() -> [Square; 65]
    ensures { map (λ (x : Element). x.value) result ≡ bench_values }
{
    array::from_fn(
        |k: usize| -> Square
            requires { k < 65 }
            ensures { result.value ≡ bench_value k }
        {
            Square {
                value: Mod503::draw(((k + 2) * (k + 2)) as u64),
            }
        },
    )
}
