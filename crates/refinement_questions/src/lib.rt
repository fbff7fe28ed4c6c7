// The questions of a refinement: 18, 1 to 4 of each level, whose grids are made, and 5, 10, 11, 12 and 8.
#![tactic(auto)]

ghost use Rattle.std.specs.Prelude.{◌≡◌};
ghost use Rattle.refinement_levels.specs.Questions.{question18};

mod grids;
mod later;

pub use grids::{Grids, made_levels};
pub use later::{first_level_no, room_of};

// Question 18: is k from 2 to 10 and the number of levels from 1 to 8?
pub fn levels_in_range(factor: usize, levels: usize) -> bool
    ensures { result ≡ (question18 factor levels).answered_yes }
{
    (2..=10).contains(&factor) && (1..=8).contains(&levels)
}
