// Whether points lie in one simplex: with one of them as the start, all coefficient lists are 0s and 1s, and any two
// are nested and different. A list of 0s and 1s is a mask of 16 bits. Only the checker calls these functions, with a
// grid that is made and points of it.
#![tactic(auto)]

mod nesting;
mod sets;

pub use nesting::one_chain;
