// The bench: small enough to follow by hand, and no cryptographic commitment.
#![tactic(auto)]

pub mod squares;
