// A stack for every element type, in memory that the caller lends, and a list in an array of its own.
#![tactic(auto)]

mod array_vec;
mod lifo;

pub use array_vec::ArrayVec;
pub use lifo::{Full, Stack};
