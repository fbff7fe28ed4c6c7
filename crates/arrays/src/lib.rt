// Arrays of 16 numbers, and what a move does with them: index sets as masks, lists at the front of an array, points and
// their coefficients by one step on or back, what is held of a place, and the ways round the blocks. Nothing here knows
// the state of a run.
#![tactic(auto)]

mod going;
mod holding;
mod lists;
mod mask;
mod points;
mod rounds;
mod shifts;
#[cfg(test)]
mod tests;
mod ways;

pub use holding::Held;
pub use lists::{
    exchange, find, index_at, insert, label_in, position_at, remove, rotate_left, rotate_right,
};
pub use mask::{add, has, without};
pub use points::{padded, zeros};
pub use rounds::{first_outside, first_outside_or_zero, in_neither, is_filled};
pub use shifts::{lower, raise, shift};
pub use ways::round_of;
