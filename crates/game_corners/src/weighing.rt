// The differences at the corners of a point: the points with one strategy in place of the last player's mix.
ghost use Rattle.std.specs.Prelude.{List, ◌≡◌, ℕ, ◌+◌, ◌≤◌, ◌<◌, length, take, set, replicate};
ghost use Rattle.combinatorics.specs.Front.{front};
ghost use Rattle.game_corners.specs.Corners.{last_player, num_corners, Cornered, CornersToWeigh};
ghost use Rattle.game_weighed.specs.Levels.{StandTo, game_grid};

use crate::largest;
use crate::picking::pick;
use game_losses::weigh_point;
use game_weighed::Game;

// The point with 1 at index h and nothing else from index first on.
fn corner(point: &[u16], first: usize, h: usize) -> [u16; 16]
    requires { (first ≤ length point.now) × (first ≤ 16) × (h < 16) }
    ensures { result ≡ set (front (take first point.now) (replicate 16 0)) h 1 }
{
    let mut corner = [0u16; 16];
    corner[..first].copy_from_slice(&point[..first]);
    corner[h] = 1;
    corner
}

// The differences at corner k come to those at the corners before it. The losses of the strategies there stand on the
// last level.
fn weigh_corner(game: &Game, point: &[u16], levels: &[u32], k: usize, differences: &mut [i64])
    requires { let g = game_grid game.now in
        ((losses : List ℕ)
        × CornersToWeigh g game.now.firsts.now game.now.owners.now losses point.now levels.now
        differences.old)
        × (k < num_corners g) }
    ensures { let g = game_grid game.now in
        let y = point.now in
        (losses : List ℕ) → StandTo g losses y (last_player g) levels.now
        → Cornered g losses y k differences.old → Cornered g losses y (k + 1) differences.new }
{
    let indices = point.len();
    let last = game.sizes.len() - 1;
    let first = usize::from(game.firsts[last]);
    let corner = corner(point, first, first + k);
    let at = k * 16;
    let mut values = [0u32; 16];
    let mut expected = [0u32; 16];
    let mut replaced = [0u32; 16];
    pick(game.owners, levels, last, k, indices, &mut values);
    weigh_point(
        game.sizes,
        game.divisions,
        game.firsts,
        &corner[..indices],
        &values,
        &mut expected,
        &mut replaced,
    );
    largest::put_differences(&mut differences[at..at + 16], &expected, &replaced);
}

// The differences at all corners of the point, in the game with 1 as the last division.
pub fn weigh_corners(game: &Game, point: &[u16], levels: &[u32], differences: &mut [i64])
    requires { let g = game_grid game.now in
        (losses : List ℕ)
        × CornersToWeigh g game.now.firsts.now game.now.owners.now losses point.now levels.now
        differences.old }
    ensures { let g = game_grid game.now in
        let y = point.now in
        (losses : List ℕ) → StandTo g losses y (last_player g) levels.now
        → Cornered g losses y (num_corners g) differences.new }
{
    let size = usize::from(game.sizes[game.sizes.len() - 1]);
    for k in 0..size {
        weigh_corner(game, point, levels, k, differences);
    }
}
