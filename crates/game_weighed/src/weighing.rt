// The levels behind a block.
ghost use Rattle.std.specs.Prelude.{List, [], ℕ, ◌+◌, ◌-◌, ◌<◌, length};
ghost use Rattle.grid_points.specs.Grid.{lent};
ghost use Rattle.game_weighed.specs.Levels.{place, next_at, IndexToWeigh, LevelToWeigh, LevelWeighed};
ghost use Rattle.game_weighed.specs.Levels.{LevelsAt, StandTo, Written};

use crate::game::Game;
use crate::tables;

// The table of index h on the next level: weighed by the mix of the level's block, unless that is the index's own.
fn weigh_index(owner: usize, mix: &[u16], levels: &mut [u32], level: usize, h: usize, rest: usize)
    requires { IndexToWeigh owner mix.now levels.old level h rest }
    ensures { let old = levels.old in
        Written old (place (level + 1) h) rest (next_at owner mix.now old level h rest)
        levels.new }
{
    let from = (level * 16 + h) * 162;
    let to = from + 2592;
    if owner == level {
        tables::copy_table(levels, from, to, rest);
    } else {
        tables::weigh_table(levels, from, to, rest, mix);
    }
}

// The tables of all indices on the next level.
fn weigh_level(game: &Game, mix: &[u16], level: usize, indices: usize, levels: &mut [u32])
    requires { LevelToWeigh game.now.owners.now game.now.rests.now mix.now level indices levels.old }
    ensures { LevelWeighed game.now.owners.now game.now.rests.now mix.now level indices
        levels.old levels.new }
{
    for h in 0..indices {
        let owner = usize::from(game.owners[h]);
        let rest = game.rests[(level + 1) * 6 + owner];
        weigh_index(owner, mix, levels, level, h, rest);
    }
}

// The levels behind the block first, up to that of the last block. The numbers behind each table, up to the place of
// the next one, are left free, and nothing reads them: `StandTo` says what every reader asks for, the tables as far as
// each has profiles.
pub fn weigh_levels(game: &Game, point: &[u16], first: usize, levels: &mut [u32])
    requires { (first < length game.now.sizes.now)
        × ((ds losses : List ℕ)
        × LevelsAt (lent game.now.sizes.now ds) game.now.firsts.now game.now.owners.now game.now.rests.now losses
        point.now first levels.old) }
    ensures { let g = lent game.now.sizes.now [] in
        let y = point.now in
        ((losses : List ℕ) → StandTo g losses y first levels.old
        → StandTo g losses y (length game.now.sizes.now - 1) levels.new) }
{
    let indices = point.len();
    let last = game.sizes.len() - 1;
    for level in first..last {
        let from = usize::from(game.firsts[level]);
        let end = from + usize::from(game.sizes[level]);
        weigh_level(game, &point[from..end], level, indices, levels);
    }
}
