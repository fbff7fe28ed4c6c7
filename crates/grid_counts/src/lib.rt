// What is counted and added up of a grid, on lists of sizes, divisions and coordinates.
#![tactic(auto)]

ghost use Rattle.std.specs.Prelude.{◌≡◌, ◌≤◌};

mod bounds;
mod coordinates;
mod counts;
mod round;
mod sizes;

pub use bounds::terms;
pub use coordinates::total;
pub use counts::{block_count, points};
pub use round::{index_after, index_before};
pub use sizes::{each_at_least, each_one, first_index};

// "Is P at most 60,000?": counts above it are cut off. The grid has it as its limit.
pub const MAX_POINTS: usize = 60000;
