// Questions 5, 10, 11, 12 and 8.
ghost use Rattle.std.specs.Prelude.{◌≡◌, ◌≤◌};
ghost use Rattle.grid.specs.Made.{IsMade, shape};
ghost use Rattle.refinement_levels.specs.Questions.{level_room};
ghost use Rattle.questions.specs.Questions.{first_no};
ghost use Rattle.refinement_questions.specs.Later.{asked_behind};

use game_losses::{in_range, num_profiles};
use grid::Grid;

// How many numbers of the answer buffer a level has: (n + 1) times m.
pub fn room_of(grid: Grid) -> usize
    requires { IsMade grid }
    ensures { (result ≡ level_room (shape grid)) × (result ≤ 272) }
{
    let m = grid.indices;
    (m - grid.blocks + 1) * m
}

// The number of the first that is answered no, or 0, given the first grid, the last level's P, and how long both
// buffers are.
pub fn first_level_no(
    grid: Grid,
    points: usize,
    start: &[u16],
    losses: &[u16],
    levels: usize,
    label_room: usize,
    room: usize,
) -> u8
    requires { IsMade grid × (levels ≤ 8) }
    ensures { result ≡ first_no (asked_behind (shape grid) points start.now losses.now
        levels label_room room) }
{
    if !grid.is_grid_point(start) {
        return 5;
    }
    if losses.len() != grid.blocks * num_profiles(&grid.sizes[..grid.blocks]) {
        return 10;
    }
    if !in_range(losses) {
        return 11;
    }
    if label_room != points {
        return 12;
    }
    if room < levels * room_of(grid) {
        return 8;
    }
    0
}
