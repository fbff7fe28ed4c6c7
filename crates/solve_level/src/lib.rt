// The run of a game on any grid, behind its questions, with no label table. What the run looks up of the grid depends
// on the sizes of its blocks alone, so it is lent the grid of the same sizes whose divisions are 1, which every game
// has, and the divisions beside it.
#![tactic(auto)]

ghost use Rattle.std.specs.Prelude.{◌≡◌};
ghost use Rattle.combinatorics.specs.Front.{front};
ghost use Rattle.finder.specs.Run.{case_of, numbers_of};
ghost use Rattle.solve_level.specs.Runs.{CanRunGame, run_problem};
ghost use Rattle.place.specs.Path.{answer as answer_of};

use arrays::{Held, round_of};
use finder::{RunAnswer, announce};
use game_weighed::{Game, rests};
use grid::Grid;
use solve_pass::pass;

// The pass along the path of the game, and its answer.
pub fn run(
    unit: Grid,
    divisions: &[u16],
    losses: &[u16],
    start: &[u16],
    answer: &mut [u16],
    budget: u64,
) -> RunAnswer
    requires { CanRunGame unit divisions.now losses.now start.now answer.old }
    ensures result_value { let p = run_problem unit divisions.now losses.now start.now in
        result ≡ case_of (answer_of p budget) }
    ensures answer_after { let p = run_problem unit divisions.now losses.now start.now in
        answer.new ≡ front (numbers_of (answer_of p budget)) answer.old }
{
    let round = round_of(unit);
    let mut held = Held::at(start, unit.indices);
    let sizes = &unit.sizes[..unit.blocks];
    let rests = rests(sizes);
    let game = Game {
        sizes,
        divisions,
        firsts: &unit.firsts,
        owners: &unit.block,
        rests: &rests,
        losses,
    };
    let finish = pass(&game, unit.indices, &round, &mut held, budget);
    announce(unit, &round, &held, finish, answer, budget)
}
