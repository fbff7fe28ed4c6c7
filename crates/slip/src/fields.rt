// The fields of a slip, each read once: what it says, or what stands for it where its bit does not, and where it ends.
// None says that the field's bytes are not there.
ghost use Rattle.std.specs.Prelude.{◌≡◌, ◌<◌, ◌≤◌, length};
ghost use Rattle.combinatorics.specs.Front.{padded};
ghost use Rattle.grid.specs.Made.{shape, IsMade};
ghost use Rattle.slip.specs.Reading.{head_of, start_of, budget_of, table_of, Asked};
ghost use Rattle.slip_fields.specs.Slip.{is_map, stands as stands_in, field_at, default_coordinate, default_start};

use crate::{Budget, Start, Table};
use grid::Grid;

// Whether bits 5 to 7 are clear and exactly one of bits 2, 3 and 4 stands: such a map is one of 4 to 11 and 16 to 19.
fn is_map(map: u8) -> bool
    ensures { result ≡ is_map map }
{
    matches!(map, 4..=11 | 16..=19)
}

// Map, N, sizes and divisions: the position behind them.
pub fn head(slip: &[u8]) -> Option<usize>
    ensures { result ≡ head_of slip.now }
{
    if slip.len() < 2 {
        return None;
    }
    let end = 2 + 3 * usize::from(slip[1]);
    (end <= slip.len() && is_map(slip[0])).then_some(end)
}

// Whether bit k of a slip's map stands.
fn bit_stands(slip: &[u8], k: u8) -> bool
    requires { (0 < length slip.now) × (k < 5) }
    ensures { result ≡ stands_in slip.now k }
{
    (slip[0] >> k) % 2 == 1
}

// The coordinate at index h of the point with d_j at each block's first index.
fn default_coordinate(grid: Grid, h: usize) -> u16
    requires { IsMade grid × (h < grid.indices) }
    ensures { result ≡ default_coordinate (shape grid) h }
{
    let j = grid.block_of(h);
    if h == usize::from(grid.firsts[j]) {
        grid.divisions[j]
    } else {
        0
    }
}

fn default_start(grid: Grid) -> [u16; 16]
    requires { IsMade grid }
    ensures { result ≡ padded 16 (default_start (shape grid)) }
{
    let mut start = [0u16; 16];
    for h in 0..grid.indices {
        start[h] = default_coordinate(grid, h);
    }
    start
}

// The start, behind the head.
pub fn start(slip: &[u8], at: usize, grid: Grid) -> Option<Start>
    requires { Asked slip.now grid × (at ≡ field_at slip.now 0) }
    ensures { result ≡ start_of slip.now }
{
    if !bit_stands(slip, 0) {
        let numbers = default_start(grid);
        return Some(Start { numbers, end: at });
    }
    if slip.len() - at < 2 * grid.indices {
        return None;
    }
    let mut numbers = [0u16; 16];
    little_endian::words(slip, at, &mut numbers[..grid.indices]);
    let end = at + 2 * grid.indices;
    Some(Start { numbers, end })
}

// The budget, behind the start.
pub fn budget(slip: &[u8], at: usize, grid: Grid) -> Option<Budget>
    requires { Asked slip.now grid × (at ≡ field_at slip.now 1) × (at ≤ length slip.now) }
    ensures { result ≡ budget_of slip.now }
{
    if !bit_stands(slip, 1) {
        let places = grid.bound();
        return Some(Budget { places, end: at });
    }
    if slip.len() - at < 8 {
        return None;
    }
    let places = little_endian::number64(slip, at);
    Some(Budget {
        places,
        end: at + 8,
    })
}

// Labels, a game or losses: the one field left, which has to be the rest of the slip.
pub fn table(slip: &[u8], at: usize, grid: Grid) -> Option<Table>
    requires { Asked slip.now grid × (at ≡ field_at slip.now 2) × (at ≤ length slip.now) }
    ensures { result ≡ table_of slip.now }
{
    let left = slip.len() - at;
    if bit_stands(slip, 2) {
        return (left == grid.points).then_some(Table::LabelsFrom(at));
    }
    if bit_stands(slip, 3) {
        if left != 1 {
            return None;
        }
        return Some(Table::Game(slip[at]));
    }
    let losses = grid.blocks * game_losses::num_profiles(&grid.sizes[..grid.blocks]);
    (left == 2 * losses).then_some(Table::LossesFrom(at))
}
