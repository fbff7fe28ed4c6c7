// The path finder: the run on a label table.
#![tactic(auto)]

mod answers;
mod facts;

pub use answers::{RunAnswer, announce, announced, first_run_no, run, run_on};
pub use facts::put_answer;
