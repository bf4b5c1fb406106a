// The primes whose numbers are a field here.
ghost use Rattle.std.specs.Prelude.{◌≡◌, ℕ, ◌-◌, ◌*◌, ◌%◌, ◌^◌, ◌<◌, ◌≤◌};
ghost use Rattle.modular.specs.Primes.{inverse_mod};

use crate::number::Modular;

// P is prime, and not 2. The facts stand above the function, since a bound on `Modular<P>` reaches no others.
pub trait Prime<const P: u32> {
    // How many bytes one number takes, from 1 to 4.
    const WIDTH: usize;

    ghost WIDTH: { ℕ };

    ghost narrow: { (1 ≤ WIDTH) × (WIDTH ≤ 4) };

    ghost fits: { P ≤ 256 ^ WIDTH };

    ghost several: { 1 < P };

    ghost inverts: { (n : ℕ) → 0 < n → n < P → (n * (n ^ (P - 2) % P)) % P ≡ 1 };

    ghost zero: { 0 ^ (P - 2) % P ≡ 0 };

    // x^(P - 2), which is the inverse of x; of zero it is zero.
    // Tried as a default, which 503 and 65,537 would share: the check cannot give it the clauses in an implementation.
    fn inverse(x: Modular<P>) -> Modular<P>
        ensures { result ≡ inverse_mod several x.entry };
}
