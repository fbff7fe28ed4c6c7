// The losses at a point, at each index: the expected loss of its player, and the loss if the index's strategy replaces
// the mix. They follow from the losses of the strategies against the opponents' mixes, which are lent for each index.
ghost use Rattle.std.specs.Prelude.{List, map, ◌≡◌, ℕ, ◌<◌};
ghost use Rattle.combinatorics.specs.Front.{front};
ghost use Rattle.grid_points.specs.Grid.{num_blocks, indices, lent};
ghost use Rattle.game_losses.specs.Game.{player_loss, replaced_loss};
ghost use Rattle.game_losses.specs.AtPoint.{GameAtPoint, HasRoomAtIndices, StrategiesStand, with_block};

use crate::expected;

// At the player's indices stand the expected loss, and the loss if each strategy replaces the mix.
fn weigh_player(
    sizes: &[u8],
    divisions: &[u16],
    firsts: &[u8; 6],
    point: &[u16],
    values: &[u32],
    player: usize,
    expected: &mut [u32],
    replaced: &mut [u32],
)
    requires { let g = lent sizes.now divisions.now in
        ((losses : List ℕ) × GameAtPoint g firsts.now losses point.now values.now)
        × (player < num_blocks g)
        × HasRoomAtIndices g expected.old replaced.old }
    ensures expected_after { let g = lent sizes.now divisions.now in
        (losses : List ℕ) → StrategiesStand g losses point.now values.now
        → expected.new
        ≡ with_block g player (player_loss g losses point.now) expected.old }
    ensures replaced_after { let g = lent sizes.now divisions.now in
        (losses : List ℕ) → StrategiesStand g losses point.now values.now
        → replaced.new
        ≡ with_block g player (replaced_loss g losses point.now) replaced.old }
{
    let first = usize::from(firsts[player]);
    let end = first + usize::from(sizes[player]);
    expected::put_losses(
        &point[first..end],
        &values[first..end],
        divisions[player],
        first,
        expected,
        replaced,
    );
}

// The losses at a point stand at the front of both slices, one for each index.
pub fn weigh_point(
    sizes: &[u8],
    divisions: &[u16],
    firsts: &[u8; 6],
    point: &[u16],
    values: &[u32],
    expected: &mut [u32],
    replaced: &mut [u32],
)
    requires { let g = lent sizes.now divisions.now in
        ((losses : List ℕ) × GameAtPoint g firsts.now losses point.now values.now)
        × HasRoomAtIndices g expected.old replaced.old }
    ensures expected_after { let g = lent sizes.now divisions.now in
        (losses : List ℕ) → StrategiesStand g losses point.now values.now
        → expected.new
        ≡ front (map (player_loss g losses point.now) (indices g)) expected.old }
    ensures replaced_after { let g = lent sizes.now divisions.now in
        (losses : List ℕ) → StrategiesStand g losses point.now values.now
        → replaced.new
        ≡ front (map (replaced_loss g losses point.now) (indices g)) replaced.old }
{
    for player in 0..sizes.len() {
        weigh_player(
            sizes, divisions, firsts, point, values, player, expected, replaced,
        );
    }
}
