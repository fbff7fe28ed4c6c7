// The distance of two grid points.
ghost use Rattle.std.specs.Prelude.{◌≡◌, ◌≤◌, ◌<◌, take};
ghost use Rattle.grid_points.specs.Grid.{Grid as Shape};
ghost use Rattle.grid.specs.Made.{shape, IsMade};
ghost use Rattle.combinatorics.specs.Counting.{apart as apart_of};
ghost use Rattle.nearest_visited.specs.Distance.{distance, other_divisions};
ghost use Rattle.nearest_met.specs.Measure.{CanMeasure, HasWeights};

use grid::Grid;

// D / d_j, the product of the other divisions: question 4 has shown that it fits.
fn others(g: Grid, j: usize) -> usize
    requires { IsMade g × (j < g.blocks) }
    ensures { (result ≡ other_divisions (shape g) j) × (result ≤ 60000) }
{
    let mut product = 1;
    for (i, division) in g.divisions[..g.blocks].iter().enumerate() {
        if i != j {
            product *= usize::from(*division);
        }
    }
    product
}

// It stands in an array, one for each index, made once for all distances.
pub fn weights(g: Grid) -> [usize; 16]
    requires { IsMade g }
    ensures { HasWeights (shape g) result }
{
    let mut a = [0; 16];
    for h in 0..g.indices {
        a[h] = others(g, g.block_of(h));
    }
    a
}

// The absolute difference.
fn apart(a: u16, b: u16) -> usize
    ensures { (result ≡ apart_of a b) × (result ≤ 65535) }
{
    usize::from(a.abs_diff(b))
}

// The distance from w of the point in the first m numbers of y. At most 16 terms add up, so that the sum fits.
pub fn distance_of(weights: &[usize; 16], w: &[u16], y: &[u16; 16], m: usize) -> usize
    requires { (g : Shape) × CanMeasure g weights.now w.now m }
    ensures { (g : Shape) → CanMeasure g weights.now w.now m
        → result ≡ distance g w.now (take m y.now) }
{
    let mut total = 0;
    for h in 0..m {
        total += apart(y[h], w[h]) * weights[h];
    }
    total
}
