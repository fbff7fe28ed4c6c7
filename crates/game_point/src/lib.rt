// The label of one point of a game, worked out for that point alone: nothing is kept from one point to the next, and
// the sums have 64 bits, so that the number of grid points does not matter. What is public here is for the pass that
// works its labels out, which shows what it asks.
#![tactic(auto)]

ghost use Rattle.std.specs.Prelude.{[], ◌≡◌};
ghost use Rattle.grid_points.specs.Grid.{lent};
ghost use Rattle.game_losses.specs.Game.{game_label};
ghost use Rattle.game_weighed.specs.Levels.{Rests, game_grid};
ghost use Rattle.game_point.specs.Label.{GameAt, gain_at};

use game_corners::first_largest;
use game_weighed::Game;

mod differing;
mod strategies;
mod weighing;

// The label of a point, and the largest difference there.
#[derive(Clone, Copy)]
pub struct PointLabel {
    pub label: u8,
    pub gain: i64,
}

// The label of the point, which is the first index whose difference is the largest, and that difference.
pub fn label_at(game: &Game, point: &[u16]) -> PointLabel
    requires game_at { let g = game_grid game.now in
        GameAt g game.now.firsts.now game.now.owners.now game.now.losses.now point.now }
    requires rests { Rests (lent game.now.sizes.now []) game.now.rests.now }
    ensures { let g = game_grid game.now in
        (result.label ≡ game_label g game.now.losses.now point.now)
        × (result.gain ≡ gain_at g game.now.losses.now point.now) }
{
    let values = strategies::strategy_losses(game, point);
    let differences = differing::differences(game, point, &values);
    let i = first_largest(&differences, point.len());
    PointLabel {
        label: (i + 1) as u8,
        gain: differences[i],
    }
}
