// The labels of points that differ only in the last player's mix, out of the differences at their corners: the points
// with one strategy in place of that mix.
#![tactic(auto)]

mod labels;
mod largest;
mod picking;
mod weighing;

pub use labels::label_point;
pub use largest::first_largest;
pub use weighing::weigh_corners;
