// Questions 5, 6 and 7.
ghost use Rattle.std.specs.Prelude.{◌≡◌};
ghost use Rattle.questions.specs.Questions.{first_no};
ghost use Rattle.grid.specs.Made.{IsMade};
ghost use Rattle.walk_calls.specs.Asked.{later_walk_questions};

use grid::Grid;
use label_table::all_at_most;

// The number of the first of questions 5 to 7 that is answered no, or 0, on a grid that is accepted.
pub fn first_table_no(g: Grid, start: &[u16], labels: &[u8]) -> u8
    requires { IsMade g }
    ensures { result ≡ first_no (later_walk_questions g start.now labels.now) }
{
    if !g.is_grid_point(start) {
        return 5;
    }
    if labels.len() != g.points {
        return 6;
    }
    if !all_at_most(labels, g.indices as u8) {
        return 7;
    }
    0
}
