// The reader of a trail.
#![tactic(auto)]

mod answers;

pub use answers::{ReadAnswer, Reading, read};
