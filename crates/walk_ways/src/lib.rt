// What comes next from the present place of a walk.
#![tactic(auto)]

mod choice;
mod ending;
mod one_way;

pub use choice::{from_other, from_start};
use end_kinds::Kind;
pub use ending::refused;
use walk_places::Place;

// What a call answers.
#[derive(Clone, Copy)]
pub enum WalkAnswer {
    // The number of the first of questions 1 to 7, 20 and 16 that is answered no.
    Refused(u8),
    // The walk stands at an end: its kind, its block from 1, and how many vertices the simplex has.
    Ended {
        kind: Kind,
        block: u8,
        vertices: usize,
    },
    // The walk is moved on to the next place, by this of the seven rules.
    Moved(u8),
}

// What comes next: the answer, the simplex of an end, and the place to which the walk is moved.
#[derive(Clone, Copy)]
pub struct Next {
    pub answer: WalkAnswer,
    pub simplex: [u16; 256],
    pub place: Place,
}

// Where a move leads: to a place, by a rule; or to an end, with an index of the block for which the simplex is
// complete.
#[derive(Clone, Copy)]
pub enum Leads {
    Onto(u8),
    PlaceEnd(usize),
    FacetEnd(usize),
}

// A move, with the place to which it leads, if to any.
#[derive(Clone, Copy)]
pub struct Move {
    pub leads: Leads,
    pub place: Place,
}
