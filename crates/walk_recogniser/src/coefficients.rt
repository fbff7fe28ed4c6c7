// The coefficient list of a grid point, block by block: each coefficient gives the next.
ghost use Rattle.std.specs.Prelude.{true, List, ◌≡◌, ℕ, ◌<◌, length, take};
ghost use Rattle.grid_points.specs.Grid.{at, is_grid_point};
ghost use Rattle.grid.specs.Made.{IsMade, shape};
ghost use Rattle.place.specs.Coefficients.{coefficients as coefficients_of};
ghost use Rattle.walk_recogniser.specs.Pieces.{InBlock, PutIn, started_on};

use grid::Grid;

// The coefficient at the first index of a block, whose indices stand from first up to end: followed from 65,535 on, the
// coefficients fall by it.
fn first_of(v: &[u16], y: &[u16; 16], first: usize, end: usize) -> usize
    requires { (c : List ℕ) × InBlock c v.now y.now first end }
    ensures { (c : List ℕ) → InBlock c v.now y.now first end → result ≡ at c first }
{
    let mut x: usize = 65535;
    let mut least: usize = 65535;
    for h in first..end {
        least = least.min(x);
        x = x + usize::from(v[h]) - usize::from(y[h]);
    }
    65535 - least
}

// The coefficients of a block, from that of its first index on.
fn put_block(list: &mut [u16; 16], v: &[u16], y: &[u16; 16], first: usize, end: usize, from: usize)
    requires { ((c : List ℕ) × InBlock c v.now y.now first end × (from ≡ at c first))
        × (length list.old ≡ 16) }
    ensures { (c : List ℕ) → InBlock c v.now y.now first end → from ≡ at c first
        → PutIn c first end list.old list.new }
{
    let mut x = from;
    for h in first..end {
        list[h] = x as u16;
        x = x + usize::from(v[h]) - usize::from(y[h]);
    }
}

// The coefficient list of the first m numbers of y, with v as the start.
pub fn coefficients(g: Grid, v: &[u16], y: &[u16; 16]) -> [u16; 16]
    requires { IsMade g × (is_grid_point (shape g) v.now ≡ true)
        × (is_grid_point (shape g) (take g.indices y.now) ≡ true) }
    ensures { (length result ≡ 16) × ((k : ℕ) → k < g.indices
        → at result k ≡ at (coefficients_of (started_on g v.now) (take g.indices y.now)) k) }
{
    let mut list = [0u16; 16];
    for j in 0..g.blocks {
        let first = usize::from(g.firsts[j]);
        let end = first + usize::from(g.sizes[j]);
        let from = first_of(v, y, first, end);
        put_block(&mut list, v, y, first, end, from);
    }
    list
}
