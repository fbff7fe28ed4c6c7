// A game's losses weighed by the mixes of one block after the other, the first block first. For each index there is a
// table of its losses against the profiles of the opponents. On level l it is weighed by the mixes of the opponents
// before block l, and has a number for each profile of those from l on. All tables of all levels stand in one array,
// so that a point that keeps the mixes before a block keeps the levels up to it.
#![tactic(auto)]

mod game;
mod lengths;
mod load;
mod tables;
mod weighing;

pub use game::Game;
pub use lengths::rests;
pub use load::load_losses;
pub use weighing::weigh_levels;
