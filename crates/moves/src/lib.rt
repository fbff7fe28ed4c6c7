// The state of a run over what it holds of a place, and the moves by which a point leaves. What is public here is for
// the crates above, which show what it asks.
#![tactic(auto)]

mod leaving;
mod points;

pub use leaving::leave;
pub use points::{advance, put_points};

// What the next move looks at, beside the numbers that are held. T and U are masks of 16 indices.
#[derive(Clone, Copy)]
pub struct Status {
    // how the present place was reached: 1 to 7 as in the seven rules
    pub rule: u8,
    // how many indices T has; the place has one point more
    pub count: usize,
    pub t: u16,
    pub u: u16,
    // the number, from 0, of the point that has just come in, or after rules 6 and 7 of the point that leaves next
    pub active: usize,
}

// What a move gives: the status at the next place, or an end, with an index of the block for which the simplex is
// complete. At an end nothing that is held has changed.
#[derive(Clone, Copy)]
pub enum Outcome {
    Moved(Status),
    PlaceEnd(usize),
    FacetEnd(usize),
}
