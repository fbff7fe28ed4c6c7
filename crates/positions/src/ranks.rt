// The position of a block's coordinates among the lists of that block.
ghost use Rattle.std.specs.Prelude.{map, ◌≡◌, ◌+◌, ◌-◌, ◌≤◌, pred};
ghost use Rattle.combinatorics.specs.Counting.{choose};
ghost use Rattle.combinatorics.specs.Lists.{sum, up_from};
ghost use Rattle.positions.specs.Binomials.{InTable, IsBinomial, HasRows};
ghost use Rattle.positions.specs.Steps.{after_steps, CanTakeSteps};
ghost use Rattle.grid_points.specs.Grid.{at, block_points, position_in};

use crate::{ENTRIES, ROW};

// With k + 1 numbers to come that add up to left: how many lists have a first number below x.
fn lists_before(t: &[u16; ENTRIES], k: usize, left: usize, x: usize) -> usize
    requires in_table { InTable k left × (x ≤ left) }
    requires binomial { IsBinomial t.now k left × IsBinomial t.now k (left - x) }
    ensures { result + choose (left - x + k) k ≡ choose (left + k) k }
{
    let row = (15 - k) * ROW;
    usize::from(t[row + left]) - usize::from(t[row + (left - x)])
}

// The block has size coordinates from first on, which add up to division after the steps.
pub fn in_block(
    t: &[u16; ENTRIES],
    y: &[u16; 16],
    steps: &[u16; 16],
    first: usize,
    size: usize,
    division: usize,
) -> usize
    requires le_size { (2 ≤ size) × (first + size ≤ 16) × (choose (division + pred size) (pred size) ≤ 60000) }
    requires has_rows { HasRows size division t.now × CanTakeSteps (first + size) y.now steps.now
        × (sum (map (at (after_steps y.now steps.now)) (up_from first size)) ≡ division) }
    ensures { let after = after_steps y.now steps.now in
        result ≡ position_in (block_points size division) (map (at after) (up_from first size)) }
{
    let mut rank: usize = 0;
    let mut left = division;
    let last = first + size - 1;
    for k in (2..size).rev() {
        let x = usize::from(y[last - k]) + usize::from(steps[last - k]) - 16;
        rank += lists_before(t, k, left, x);
        left -= x;
    }
    rank + (usize::from(y[last - 1]) + usize::from(steps[last - 1]) - 16)
}
