// Fields, spaces over them, and the records that are made of their elements.
#![tactic(auto)]

pub mod bytes;
pub mod claim;
pub mod entry;
pub mod fault;
pub mod field;
pub mod fold;
pub mod proof;
pub mod reader;
pub mod run;
pub mod setup;
pub mod space;
pub mod sums;
pub mod varint;
