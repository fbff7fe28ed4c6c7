// The labels of all points of a game.
ghost use Rattle.std.specs.Prelude.{false, List, [], ◌≡◌, ℕ, ◌-◌, length, take};
ghost use Rattle.combinatorics.specs.Front.{front};
ghost use Rattle.combinatorics.specs.Lists.{sum};
ghost use Rattle.game_corners.specs.Corners.{num_corners, Cornered};
ghost use Rattle.game_labels.specs.Points.{ChangeToWeigh, PointsToLabel};
ghost use Rattle.grid_points.specs.Grid.{num_points, lent};
ghost use Rattle.game_weighed.specs.Levels.{Owners, Rests, StandTo, game_grid};
ghost use Rattle.game_losses.specs.Game.{labels};
ghost use Rattle.game_losses.specs.Table.{IsTable};
ghost use Rattle.points_in_order.specs.Lent.{WithFirsts};

use game_corners::{label_point, weigh_corners};
use game_losses::num_profiles;
use game_weighed::{Game, load_losses, weigh_levels};
use points_in_order::next_point;

// The levels behind the first block that has changed and the differences at the corners of the point, in the game with
// 1 as the last division. They stand there already if no block before the last has changed.
fn weigh_changed(
    game: &Game,
    point: &[u16],
    first: usize,
    changed: bool,
    levels: &mut [u32],
    differences: &mut [i64],
)
    requires { (ds losses : List ℕ) × ChangeToWeigh (lent game.now.sizes.now ds) game.now.divisions.now
        game.now.firsts.now game.now.owners.now game.now.rests.now losses point.now first changed levels.old
        differences.old }
    ensures stand_to { let y = point.now in
        (losses : List ℕ) → StandTo (lent game.now.sizes.now []) losses y first levels.old
        → StandTo (lent game.now.sizes.now []) losses y (length game.now.sizes.now - 1) levels.new }
    ensures cornered { let g = game_grid game.now in
        let y = point.now in
        (losses : List ℕ) → StandTo (lent game.now.sizes.now []) losses y first levels.old
        → (changed ≡ false → Cornered g losses y (num_corners g) differences.old)
        → Cornered g losses y (num_corners g) differences.new }
{
    if !changed {
        return;
    }
    weigh_levels(game, point, first, levels);
    weigh_corners(game, point, levels, differences);
}

// The labels of all points, from the first point on. In ones the last division is 1.
fn label_points(
    game: &Game,
    ones: &[u16],
    point: &mut [u16],
    levels: &mut [u32],
    differences: &mut [i64],
    buffer: &mut [u8],
)
    requires { PointsToLabel game.now ones.now point.old levels.old differences.old buffer.old }
    ensures { let g = game_grid game.now in
        buffer.new ≡ front (labels g game.now.losses.now) buffer.old }
{
    let last = game.sizes.len() - 1;
    let from = usize::from(game.firsts[last]);
    let indices = point.len();
    let count = num_profiles(game.sizes);
    load_losses(game, count, indices, levels);
    let corners = Game {
        divisions: ones,
        ..*game
    };
    let mut first: usize = 0;
    let mut changed = true;
    for label in buffer.iter_mut() {
        weigh_changed(&corners, point, first, changed, levels, differences);
        *label = label_point(&point[from..], indices, differences);
        first = next_point(game.sizes, game.firsts, point);
        changed = first < last;
    }
}

// The labels of a game that is accepted. The divisions stand at the front of the array padded too.
pub fn write_labels(game: &Game, padded: [u16; 6], indices: usize, buffer: &mut [u8])
    requires fact { let g = game_grid game.now in
        (WithFirsts g game.now.firsts.now × Owners g game.now.owners.now × IsTable g game.now.losses.now
        × Rests (lent game.now.sizes.now []) game.now.rests.now) }
    requires indices_value { (indices ≡ sum game.now.sizes.now)
        × (take (length game.now.sizes.now) padded ≡ game.now.divisions.now)
        × (length buffer.old ≡ num_points (game_grid game.now)) }
    ensures { let g = game_grid game.now in
        buffer.new ≡ front (labels g game.now.losses.now) buffer.old }
{
    let blocks = game.sizes.len();
    let mut ones = padded;
    ones[blocks - 1] = 1;
    let mut point = [0u16; 16];
    // 162 numbers for each of 16 indices on 6 levels
    let mut levels = [0u32; 15552];
    let mut differences = [0i64; 256];
    points_in_order::first_point(game.sizes, game.divisions, game.firsts, &mut point);
    label_points(
        game,
        &ones[..blocks],
        &mut point[..indices],
        &mut levels,
        &mut differences,
        buffer,
    );
}
