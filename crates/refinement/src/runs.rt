// The runs of the levels, each on its grid.
ghost use Rattle.std.specs.Prelude.{◌≡◌, length};
ghost use Rattle.combinatorics.specs.Front.{front, padded};
ghost use Rattle.finder.specs.Run.{case_of};
ghost use Rattle.grid.specs.Made.{IsMade, shape};
ghost use Rattle.refinement_levels.specs.Buffers.{numbers_after};
ghost use Rattle.refinement_levels.specs.Levels.{end_of, game_problem, times};
ghost use Rattle.refinement_levels.specs.Questions.{last_grid};
ghost use Rattle.game_losses.specs.Game.{labels as labels_of};
ghost use Rattle.refinement.specs.Answer.{level_of, levels_of};
ghost use Rattle.refinement.specs.Runs.{CanRunLevel, CanRunAll, CanSolve, CanStart, Fit};
ghost use Rattle.refinement.specs.Runs.{level_start_from, game_of, numbers_in, problem_at, written_at};

use crate::{Level, no_level};
use finder::RunAnswer;
use grid::Grid;
use positions::ENTRIES;
use refinement_questions::room_of;

// Each number times k, at the front.
fn scaled(numbers: &[u16], factor: usize) -> [u16; 16]
    requires { Fit factor numbers.now }
    ensures { result ≡ padded 16 (times factor numbers.now) }
{
    let mut start = [0u16; 16];
    for (h, number) in numbers.iter().enumerate() {
        start[h] = (factor * usize::from(*number)) as u16;
    }
    start
}

// Where a level starts: the first at the start lent, each next one at k times the first vertex of the level before.
fn start_of(grid: Grid, level: usize, start: &[u16], factor: usize, answer: &[u16]) -> [u16; 16]
    requires { CanStart (shape grid) level start.now factor answer.now × IsMade grid }
    ensures { result ≡ padded 16 (level_start_from (shape grid) level start.now factor answer.now) }
{
    let m = grid.indices;
    if level == 0 {
        return arrays::padded(start, m);
    }
    let at = (level - 1) * room_of(grid);
    scaled(&answer[at..at + m], factor)
}

// The labels of the losses on a grid, and the run on them with the bound as its budget. The questions of both are
// answered yes.
fn run_level(
    grid: Grid,
    start: &[u16],
    losses: &[u16],
    labels: &mut [u8],
    answer: &mut [u16],
) -> Level
    requires { CanRunLevel grid start.now losses.now (length labels.old) (length answer.old) }
    ensures level { result
        ≡ level_of (case_of (end_of (game_problem (shape grid) start.now losses.now))) }
    ensures labels { labels.new ≡ labels_of (shape grid) losses.now }
    ensures answer { answer.new
        ≡ front (numbers_in (game_problem (shape grid) start.now losses.now))
        answer.old }
{
    game_labels::label_on(grid, losses, labels);
    let mut binomials = [0u16; ENTRIES];
    positions::binomials(grid, &mut binomials);
    match finder::announced(grid, &binomials, start, labels, answer, grid.bound()) {
        RunAnswer::End {
            places,
            labels_read,
            kind,
            block,
            vertices,
        } => Level {
            places,
            labels_read,
            kind,
            block,
            vertices,
        },
        _ => no_level(),
    }
}

// One level: where it starts, and its run. Its labels stand at the front of their buffer, and its vertices at the
// beginning of its room in the answer buffer.
fn solve(
    grid: Grid,
    level: usize,
    start: &[u16],
    losses: &[u16],
    factor: usize,
    labels: &mut [u8],
    answer: &mut [u16],
) -> Level
    requires { CanSolve grid level start.now losses.now factor labels.old answer.old }
    ensures level { result ≡ level_of (case_of (end_of (problem_at
        (shape grid) level start.now losses.now factor answer.old))) }
    ensures labels { labels.new
        ≡ front (labels_of (shape grid) losses.now) labels.old }
    ensures answer { answer.new ≡ written_at (shape grid) level (problem_at
        (shape grid) level start.now losses.now factor answer.old)
        answer.old }
{
    let at = level * room_of(grid);
    let first = start_of(grid, level, start, factor, answer);
    run_level(
        grid,
        &first[..grid.indices],
        losses,
        &mut labels[..grid.points],
        &mut answer[at..],
    )
}

// The levels one after another, each on its grid.
pub fn run_levels(
    grids: [Grid; 8],
    start: &[u16],
    losses: &[u16],
    factor: usize,
    levels: usize,
    labels: &mut [u8],
    answer: &mut [u16],
) -> [Level; 8]
    requires { CanRunAll (game_of grids start.now losses.now factor) levels grids labels.old answer.old }
    ensures levels { result ≡ levels_of (game_of grids start.now losses.now factor) levels }
    ensures labels { let game = game_of grids start.now losses.now factor in
        labels.new ≡ labels_of (last_grid game levels) game.losses }
    ensures answer { let game = game_of grids start.now losses.now factor in
        answer.new ≡ numbers_after game levels answer.old }
{
    let mut found = [no_level(); 8];
    for i in 0..levels {
        found[i] = solve(grids[i], i, start, losses, factor, labels, answer);
    }
    found
}
