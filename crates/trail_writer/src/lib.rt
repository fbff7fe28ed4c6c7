// The run that writes a trail.
#![tactic(auto)]

mod answers;

pub use answers::{TrailAnswer, run_with_trail};
