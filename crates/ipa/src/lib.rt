// The inner product argument: claims that a sum of products is what it is said to be.
#![tactic(auto)]

pub mod fault;
pub mod witness;
