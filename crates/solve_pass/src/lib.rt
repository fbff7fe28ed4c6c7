// The pass from {v} along the path of a game, whose labels are worked out point by point: there is no label table, and
// the number of grid points does not matter. A mark is a label alone. What is public here is for the call that solves
// a game, which shows what it asks.
#![tactic(auto)]

ghost use Rattle.std.specs.Prelude.{◌≡◌, ◌<◌, take};
ghost use Rattle.game_weighed.specs.Levels.{game_grid};
ghost use Rattle.solve_pass.specs.Bare.{labelled};
ghost use Rattle.solve_pass.specs.Asked.{CanLabel, CanPassGame, CanVisitGame};
ghost use Rattle.game_losses.specs.Game.{game_label};
ghost use Rattle.moves.specs.Held.{answered, state_of};
ghost use Rattle.path_pass.specs.Finish.{Finished};
ghost use Rattle.rules.specs.Read.{point_on};
ghost use Rattle.refinement_levels.specs.Levels.{game_problem};
ghost use Rattle.rules.specs.Moves.{make_move};

use arrays::Held;
use end_kinds::Kind;
use game_point::label_at;
use game_weighed::Game;
use moves::{Outcome, Status, advance};
use path_pass::{Finish, begun, ended, on};
use rules::Round;
use ways::make_move;

// The label of the point that has just come in.
fn label_in(game: &Game, indices: usize, round: &Round, held: &Held, s: Status) -> u8
    requires { CanLabel (game_grid game.now) game.now.firsts.now game.now.owners.now
        game.now.rests.now game.now.losses.now indices (state_of round.now held.now s) }
    ensures { let g = game_grid game.now in
        result ≡ game_label g game.now.losses.now (point_on g (state_of round.now held.now s) s.active) }
{
    let mut point = held.first;
    advance(&mut point, round, s.u, &held.order, s.active);
    let seen = label_at(game, &point[..indices]);
    seen.label
}

// One place: the label of the point that has just come in is worked out, and the move is made.
fn visit(game: &Game, indices: usize, round: &Round, held: &mut Held, s: Status) -> Outcome
    requires { CanVisitGame (game_grid game.now) game.now.firsts.now
        game.now.owners.now game.now.rests.now game.now.losses.now indices (state_of round.now held.old s) }
    ensures { let g = game_grid game.now in
        let a = state_of round.now held.old s in
        answered round.now held.new s result ≡ make_move (labelled g game.now.losses.now a) }
{
    if s.rule < 6 {
        let label = label_in(game, indices, round, held, s);
        held.marks[s.active] = u32::from(label);
    }
    make_move(held, round, s)
}

// From {v} to the path's end, or until the budget is spent. From the budget's last place the pass does not move on, so
// that the labels read stay within the budget, which may be any number.
pub fn pass(game: &Game, indices: usize, round: &Round, held: &mut Held, budget: u64) -> Finish
    requires { CanPassGame (game_grid game.now) game.now.firsts.now game.now.owners.now
        game.now.rests.now game.now.losses.now indices round.now held.old }
    ensures { let g = game_grid game.now in
        Finished (game_problem g (take indices held.old.first) game.now.losses.now) budget round.now held.new result }
{
    let mut at = begun(held, indices);
    for left in (0..budget).rev() {
        let visited = budget - left - 1;
        let outcome = visit(game, indices, round, held, at.status);
        match outcome {
            Outcome::Moved(status) => {
                if left == 0 {
                    return Finish::Spent;
                }
                at = on(at, status);
            }
            Outcome::PlaceEnd(index) => return ended(at, Kind::Place, index, visited),
            Outcome::FacetEnd(index) => return ended(at, Kind::Facet, index, visited),
        }
    }
    Finish::Spent
}
