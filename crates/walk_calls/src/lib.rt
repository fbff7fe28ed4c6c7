// A walk that is lent and moved on by one place with each call.
#![tactic(auto)]

mod asking;
mod lending;
mod moving;

pub use asking::first_table_no;
pub use lending::{move_on, told_in};
pub use moving::{grid_in, moved};
use walk_places::Walk;
use walk_ways::WalkAnswer;

// The answer, the simplex of an end, m numbers for each vertex with 0 behind, and the walk after the call.
#[derive(Clone, Copy)]
pub struct Call {
    pub answer: WalkAnswer,
    pub simplex: [u16; 256],
    pub walk: Walk,
}

// What a call tells besides the walk: the answer, and the simplex of an end.
#[derive(Clone, Copy)]
pub struct Told {
    pub answer: WalkAnswer,
    pub simplex: [u16; 256],
}
