// By how much a step that takes from an index before its own lowers the position, in a grid of one block.
ghost use Rattle.std.specs.Prelude.{map, ◌≡◌, ℕ, ◌+◌, ◌-◌, ◌≤◌, ◌<◌};
ghost use Rattle.combinatorics.specs.Lists.{sum, up_from};
ghost use Rattle.grid_points.specs.Grid.{Point, at, division, position};
ghost use Rattle.grid.specs.Made.{shape, IsMade};
ghost use Rattle.positions.specs.Binomials.{InTable, IsBinomial, HasBinomials, lists};
ghost use Rattle.positions.specs.Falls.{Falls};

use crate::{ENTRIES, ROW};
use grid::Grid;

// How many lists of k numbers add up to x, which is not 0.
fn entry(t: &[u16; ENTRIES], k: usize, x: usize) -> usize
    requires { (x ≤ 60000) × (2 < k → InTable (k - 1) x × IsBinomial t.now (k - 1) x) }
    ensures { result ≡ lists k x }
{
    if 2 < k {
        return usize::from(t[(16 - k) * ROW + x]);
    }
    if k == 2 {
        return x + 1;
    }
    k
}

// By how much a step in a grid of one block lowers the position. It takes from b, an index before its own, h; between
// them the point is 0, and its coordinates from h on add up to r.
pub fn fall(g: Grid, t: &[u16; ENTRIES], h: usize, b: usize, r: usize) -> usize
    requires made { IsMade g × HasBinomials (shape g) t.now × (g.blocks ≡ 1) }
    requires h_lt_indices { (h < g.indices) × (b < h) × (r < division (shape g) 0) }
    ensures { (y z : Point) → Falls (shape g) y z h b r → position (shape g) y ≡ position (shape g) z + result }
{
    entry(t, g.indices - 1 - b, r + 1) - entry(t, g.indices - 1 - h, r + 1)
}

// The sum of the point's coordinates from each index below m on.
pub fn tails(y: &[u16; 16], m: usize) -> [u32; 16]
    requires { m ≤ 16 }
    ensures { (k : ℕ) → k < m → at result k ≡ sum (map (at y.now) (up_from k (m - k))) }
{
    let mut sums = [0u32; 16];
    let mut last: u32 = 0;
    for k in (0..m).rev() {
        last += u32::from(y[k]);
        sums[k] = last;
    }
    sums
}
