// What comes next on a walk, by the labels of its present place and the two moves from there.
#![tactic(auto)]

mod choosing;
mod spares;
mod standing;

pub use spares::spare;
pub use standing::next_on;

// The indices of T that are labels, and a point whose label the others do not need.
#[derive(Clone, Copy)]
pub struct Spared {
    pub seen: u16,
    pub point: usize,
}
