// The plant: the byte field of FIPS 197, and rows of four numbers over any field.
#![tactic(auto)]

pub mod byte;
pub mod row;
