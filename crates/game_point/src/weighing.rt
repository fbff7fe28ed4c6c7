// The losses of a strategy, weighed by the opponents' mixes at a point.
ghost use Rattle.std.specs.Prelude.{[], ◌≡◌, ◌+◌, ◌≤◌, ◌<◌};
ghost use Rattle.grid_points.specs.Grid.{Grid, lent, num_blocks};
ghost use Rattle.game_losses.specs.Game.{dot as dot_of};
ghost use Rattle.game_weighed.specs.Levels.{Rests, behind};
ghost use Rattle.game_point.specs.Weighing.{weights_from, CanWeighLosses};

use game_weighed::Game;

// How many profiles the player's opponents have behind a block: 1 behind the last of six, for which the array has none.
fn rest_behind(rests: &[usize; 36], player: usize, block: usize) -> usize
    requires { (player < 6) × (block < 6) }
    ensures { (g : Grid) → Rests g rests.now → num_blocks g ≤ 6 → result ≡ behind g player (block + 1) }
{
    if block == 5 {
        return 1;
    }
    rests[(block + 1) * 6 + player]
}

// The losses, one for each profile of the player's opponents from a block on, weighed by their mixes.
pub fn weigh(game: &Game, point: &[u16], losses: &[u16], player: usize, block: usize) -> u64
    requires { CanWeighLosses (lent game.now.sizes.now []) game.now.firsts.now game.now.rests.now point.now losses.now
        player block }
    ensures { result ≡ dot_of (weights_from (lent game.now.sizes.now []) point.now player block)
        losses.now }
{
    if block == game.sizes.len() {
        return u64::from(losses[0]);
    }
    if block == player {
        return weigh(game, point, losses, player, block + 1);
    }
    let first = usize::from(game.firsts[block]);
    let size = usize::from(game.sizes[block]);
    let rest = rest_behind(game.rests, player, block);
    let mut total: u64 = 0;
    for k in 0..size {
        let at = k * rest;
        let value = weigh(game, point, &losses[at..at + rest], player, block + 1);
        total += u64::from(point[first + k]) * value;
    }
    total
}
