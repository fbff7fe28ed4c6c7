// The differences p_j - q_h at a point, out of the losses of the strategies.
ghost use Rattle.std.specs.Prelude.{List, ◌≡◌, ℕ, ◌≤◌, ◌<◌, pos, ◌-ℤ◌, length};
ghost use Rattle.game_corners.specs.Corners.{signed_at};
ghost use Rattle.game_weighed.specs.Levels.{game_grid};
ghost use Rattle.grid_points.specs.Grid.{num_indices};
ghost use Rattle.game_losses.specs.Game.{difference as difference_of, dot as dot_of};
ghost use Rattle.game_point.specs.Label.{GameAt, OwnLosses};

use game_weighed::Game;

// The sum of the mix's numbers times the values, entry by entry. It is in 64 bits where `game_losses` has 32, and so is
// the difference: a function for both would need a model of the width's sums, which is no plainer.
fn dot(mix: &[u16], values: &[u64]) -> u64
    requires { (length mix.now ≤ length values.now) × (dot_of mix.now values.now ≤ 9000000000000000000) }
    ensures { result ≡ dot_of mix.now values.now }
{
    let mut total: u64 = 0;
    for (i, number) in mix.iter().enumerate() {
        total += u64::from(*number) * values[i];
    }
    total
}

fn signed_difference(expected: u64, replaced: u64) -> i64
    requires { (expected ≤ 9000000000000000000) × (replaced ≤ 9000000000000000000) }
    ensures { result ≡ pos expected -ℤ pos replaced }
{
    (expected as i64) - (replaced as i64)
}

// The difference at index h.
fn difference(game: &Game, point: &[u16], values: &[u64], h: usize) -> i64
    requires { let g = game_grid game.now in
        ((losses : List ℕ) × GameAt g game.now.firsts.now game.now.owners.now losses point.now
        × OwnLosses g losses point.now values.now)
        × (length values.now ≡ 16) × (h < num_indices g) }
    ensures { let g = game_grid game.now in
        (losses : List ℕ) → GameAt g game.now.firsts.now game.now.owners.now losses point.now
        → OwnLosses g losses point.now values.now
        → result ≡ difference_of g losses point.now h }
{
    let owner = usize::from(game.owners[h]);
    let first = usize::from(game.firsts[owner]);
    let end = first + usize::from(game.sizes[owner]);
    let expected = dot(&point[first..end], &values[first..end]);
    let replaced = u64::from(game.divisions[owner]) * values[h];
    signed_difference(expected, replaced)
}

pub fn differences(game: &Game, point: &[u16], values: &[u64; 16]) -> [i64; 16]
    requires { let g = game_grid game.now in
        ((losses : List ℕ) × GameAt g game.now.firsts.now game.now.owners.now losses point.now
        × OwnLosses g losses point.now values.now) }
    ensures { let g = game_grid game.now in
        (losses : List ℕ) → GameAt g game.now.firsts.now game.now.owners.now losses point.now
        → OwnLosses g losses point.now values.now
        → (h : ℕ) → h < num_indices g → signed_at result h ≡ difference_of g losses point.now h }
{
    let mut differences = [0i64; 16];
    for h in 0..point.len() {
        differences[h] = difference(game, point, values, h);
    }
    differences
}
