// The integers modulo a prime below 2^32, as a field whose elements can be drawn.
#![tactic(auto)]

pub mod mod251;
pub mod mod503;
pub mod mod65537;
pub mod number;
pub mod prime;
