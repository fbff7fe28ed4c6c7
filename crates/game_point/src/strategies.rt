// The losses of all strategies against the opponents' mixes at a point.
ghost use Rattle.std.specs.Prelude.{List, [], ◌≡◌, ℕ, ◌<◌};
ghost use Rattle.grid_points.specs.Grid.{lent, num_indices};
ghost use Rattle.game_losses.specs.Game.{product};
ghost use Rattle.game_weighed.specs.Levels.{Rests};
ghost use Rattle.game_point.specs.Label.{GameAt, own_loss, OwnLosses};

use crate::weighing::weigh;
use game_losses::num_profiles;
use game_weighed::Game;

// The loss of index h's strategy, of count losses for each player.
fn strategy_loss(game: &Game, point: &[u16], count: usize, h: usize) -> u64
    requires by_index { (ds : List ℕ) × GameAt (lent game.now.sizes.now ds) game.now.firsts.now game.now.owners.now
        game.now.losses.now point.now }
    requires rests { Rests (lent game.now.sizes.now []) game.now.rests.now }
    requires count_value { (count ≡ product game.now.sizes.now) × (h < num_indices (lent game.now.sizes.now [])) }
    ensures { result ≡ own_loss (lent game.now.sizes.now []) game.now.losses.now point.now h }
{
    let owner = usize::from(game.owners[h]);
    let rest = game.rests[owner];
    let at = owner * count + (h - usize::from(game.firsts[owner])) * rest;
    weigh(game, point, &game.losses[at..at + rest], owner, 0)
}

pub fn strategy_losses(game: &Game, point: &[u16]) -> [u64; 16]
    requires by_index { (ds : List ℕ) × GameAt (lent game.now.sizes.now ds) game.now.firsts.now game.now.owners.now
        game.now.losses.now point.now }
    requires rests { Rests (lent game.now.sizes.now []) game.now.rests.now }
    ensures { OwnLosses (lent game.now.sizes.now []) game.now.losses.now point.now result }
{
    let count = num_profiles(game.sizes);
    let mut values = [0u64; 16];
    for h in 0..point.len() {
        values[h] = strategy_loss(game, point, count, h);
    }
    values
}
