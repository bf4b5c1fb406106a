// Making a setup, and its parts.
ghost use Rattle.std.specs.Prelude.{◌≡◌, ◌^◌, MatchResult, nat_le};
ghost use Rattle.algebra.specs.declared.fault.SetupFault.{SetupFault};
ghost use Rattle.algebra.specs.Setups.{IsSetup, count as pairs, g_part, h_part, q_part, Pair};

use crate::fault::SetupFault;
use crate::setup::Setup;

// The longest row: n is at most 2^20.
const LONGEST: usize = 2097153;

impl<'a, G: Copy> Setup<'a, G> {
    pub fn new(elements: &'a [G]) -> Result<Setup<'a, G>, SetupFault>
        ensures { MatchResult result (λ s. IsSetup elements.now × (s.elements.now ≡ elements.now)) (λ e. (IsSetup elements.now → ⊥) × (e ≡ SetupFault.Row)) }
    {
        if elements.len() % 2 == 0 || elements.len() > LONGEST {
            return Err(SetupFault::Row);
        }
        Ok(Setup { elements })
    }

    // n: how many pairs there are.
    pub fn count(&self) -> usize
        ensures { result ≡ pairs self.now.elements.now }
    {
        self.elements.len() / 2
    }

    // G_i and H_i together.
    pub fn pair(&self, i: usize) -> Option<(G, G)>
        ensures { Pair self.now.elements.now i result }
    {
        Some((*self.g().get(i)?, *self.h().get(i)?))
    }

    // All of the G_i. The two parts of one row, each by its name in the argument: one method over a half would say less.
    pub fn g(&self) -> &'a [G]
        ensures { result.now ≡ g_part self.now.elements.now }
    {
        let n = self.count();
        &self.elements[0..n]
    }

    // All of the H_i.
    pub fn h(&self) -> &'a [G]
        ensures { result.now ≡ h_part self.now.elements.now }
    {
        let n = self.count();
        &self.elements[n..n + n]
    }

    pub fn product_generator(&self) -> G
        ensures { result ≡ q_part self.now.elements.now result }
    {
        self.elements[self.elements.len() - 1]
    }

    // Whether there are 2^lg_len pairs.
    pub fn supports(&self, lg_len: u8) -> bool
        ensures { result ≡ nat_le (2 ^ lg_len) (pairs self.now.elements.now) }
    {
        lg_len < 64 && 1usize << lg_len <= self.count()
    }
}
