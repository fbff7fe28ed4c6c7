// The loss table, taken apart by index.
ghost use Rattle.std.specs.Prelude.{List, [], ◌≡◌, ℕ, ◌+◌, ◌≤◌, length};
ghost use Rattle.combinatorics.specs.Lists.{sum};
ghost use Rattle.grid_points.specs.Grid.{Point, at, lent};
ghost use Rattle.game_weighed.specs.Levels.{StandTo, TableToLoad, Written};

use crate::game::Game;

// The losses stand from place to on.
fn load_table(levels: &mut [u32], to: usize, losses: &[u16])
    requires { to + length losses.now ≤ length levels.old }
    ensures { let own = losses.now in
        Written levels.old to (length own) (at own) levels.new }
{
    for (e, loss) in losses.iter().enumerate() {
        levels[to + e] = u32::from(*loss);
    }
}

// The tables of the first level, which are the same at every point: the losses of each index. What stands between and
// behind these tables is left free: the later levels are written there before they are read.
pub fn load_losses(game: &Game, count: usize, indices: usize, levels: &mut [u32])
    requires { (indices ≡ sum game.now.sizes.now)
        × ((ds : List ℕ) × TableToLoad (lent game.now.sizes.now ds) game.now.firsts.now game.now.owners.now
        game.now.rests.now game.now.losses.now count levels.old) }
    ensures { (y : Point)
        → StandTo (lent game.now.sizes.now []) game.now.losses.now y 0 levels.new }
{
    for h in 0..indices {
        let owner = usize::from(game.owners[h]);
        let rest = game.rests[owner];
        let at = owner * count + (h - usize::from(game.firsts[owner])) * rest;
        load_table(levels, h * 162, &game.losses[at..at + rest]);
    }
}
