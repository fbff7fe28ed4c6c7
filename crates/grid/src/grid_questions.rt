// Questions 1 to 4, in order.
ghost use Rattle.std.specs.Prelude.{◌≡◌};
ghost use Rattle.questions.specs.Questions.{first_no};
ghost use Rattle.grid_points.specs.Questions.{grid_questions};
ghost use Rattle.grid_points.specs.Grid.{lent};

use crate::Grid;
use grid_counts::{each_at_least, each_one, first_index};

pub fn first_grid_no(sizes: &[u8], divisions: &[u16]) -> u8
    ensures { result ≡ first_no (grid_questions (lent sizes.now divisions.now)) }
{
    let blocks = sizes.len();
    if blocks < 1 || Grid::MAX_BLOCKS < blocks {
        return 1;
    }
    if !each_at_least(sizes, Grid::MIN_SIZE) || Grid::MAX_INDICES < first_index(sizes, blocks) {
        return 2;
    }
    if divisions.len() != blocks || !each_one(divisions) {
        return 3;
    }
    if Grid::MAX_POINTS < grid_counts::points(sizes, divisions) {
        return 4;
    }
    0
}
