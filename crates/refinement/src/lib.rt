// Refinement runs: a game is solved on finer and finer grids, each run beginning where the one before ended. Levels and
// blocks count from 0 here, and blocks from 1 in what is answered.
#![tactic(auto)]

ghost use Rattle.std.specs.Prelude.{◌≡◌};
ghost use Rattle.grid_points.specs.Grid.{lent};
ghost use Rattle.refinement.specs.Answer.{answer_left, labels_left, lent_game, no_level, refine_answer};
ghost use Rattle.refinement.specs.Answer.{refused as refused_of};

use end_kinds::Kind;
use refinement_questions::{first_level_no, levels_in_range, made_levels};

mod runs;

// A level's answer.
#[derive(Clone, Copy)]
pub struct Level {
    pub places: u64,
    pub labels_read: u64,
    pub kind: Kind,
    pub block: u8,
    pub vertices: usize,
}

// What a refinement answers: the number of the first question that is answered no, or 0 and as many levels as were run,
// at the front of the array.
#[derive(Clone, Copy)]
pub struct Refined {
    pub code: u8,
    pub count: usize,
    pub levels: [Level; 8],
}

// What stands in the array where there is no level.
fn no_level() -> Level
    ensures { result ≡ no_level }
{
    Level {
        places: 0,
        labels_read: 0,
        kind: Kind::Place,
        block: 0,
        vertices: 0,
    }
}

fn refused(code: u8) -> Refined
    ensures { result ≡ refused_of code }
{
    Refined {
        code,
        count: 0,
        levels: [no_level(); 8],
    }
}

// A game on finer and finer grids: level i, counted from 0, has k^i times the divisions, and starts at k times the
// first vertex of the level before. All questions come first, in this order: 18, 1 to 4 of each level, 5, 10, 11, 12
// and 8. Behind them the label buffer holds the last level's labels, and the answer buffer the vertices of level i from
// i times (n + 1) times m on.
pub fn refine(
    sizes: &[u8],
    divisions: &[u16],
    start: &[u16],
    losses: &[u16],
    factor: usize,
    levels: usize,
    labels: &mut [u8],
    answer: &mut [u16],
) -> Refined
    ensures answer { let game = lent_game (lent sizes.now divisions.now)
        start.now losses.now factor in
        result ≡ refine_answer game levels labels.old answer.old }
    ensures labels { let game = lent_game (lent sizes.now divisions.now)
        start.now losses.now factor in
        labels.new ≡ labels_left game levels labels.old answer.old }
    ensures numbers { let game = lent_game (lent sizes.now divisions.now)
        start.now losses.now factor in
        answer.new ≡ answer_left game levels labels.old answer.old }
{
    if !levels_in_range(factor, levels) {
        return refused(18);
    }
    let made = made_levels(sizes, divisions, factor, levels);
    if made.code != 0 {
        return refused(made.code);
    }
    let grids = made.grids;
    let code = first_level_no(
        grids[0],
        grids[levels - 1].points,
        start,
        losses,
        levels,
        labels.len(),
        answer.len(),
    );
    if code != 0 {
        return refused(code);
    }
    let found = runs::run_levels(grids, start, losses, factor, levels, labels, answer);
    Refined {
        code: 0,
        count: levels,
        levels: found,
    }
}
