// The grid points in rising lexicographic order, one from the other.
#![tactic(auto)]

ghost use Rattle.std.specs.Prelude.{List, ◌≡◌, ℕ, ◌<◌, length, replicate};
ghost use Rattle.combinatorics.specs.Front.{front};
ghost use Rattle.combinatorics.specs.Lists.{sum};
ghost use Rattle.grid_points.specs.Grid.{lent};
ghost use Rattle.points_in_order.specs.Lent.{WithFirsts, PointWithFirsts};
ghost use Rattle.points_in_order.specs.PointAfter.{point_step, after, after_all, before_block, first_point};
ghost use Rattle.points_in_order.specs.PointAfter.{LastPositive};

fn last_positive(block: &[u16]) -> usize
    requires { 0 < length block.now }
    ensures { LastPositive block.now result }
{
    for i in (1..block.len()).rev() {
        if block[i] != 0 {
            return i;
        }
    }
    0
}

// The block's list becomes the one after it: true. The last becomes the first: false.
fn advance_block(block: &mut [u16]) -> bool
    requires { (0 < length block.old) × (sum block.old < 65536) }
    ensures { after block.old ≡ point_step result block.new }
{
    let last = block.len() - 1;
    let i = last_positive(block);
    let rest = block[i];
    block[i] = 0;
    if i == 0 {
        block[last] = rest;
        return false;
    }
    block[i - 1] += 1;
    block[last] = rest - 1;
    true
}

// The grid point becomes the one after it. The last becomes the first. The blocks before the one answered keep their
// coordinates.
pub fn next_point(sizes: &[u8], firsts: &[u8; 6], point: &mut [u16]) -> usize
    requires { (ds : List ℕ) × PointWithFirsts (lent sizes.now ds) firsts.now point.old }
    ensures point_after { point.new ≡ (after_all sizes.now point.old).list }
    ensures upper_bound { (result < length sizes.now)
        × (before_block sizes.now result point.new
        ≡ before_block sizes.now result point.old) }
{
    for j in (0..sizes.len()).rev() {
        let first = usize::from(firsts[j]);
        let end = first + usize::from(sizes[j]);
        if advance_block(&mut point[first..end]) {
            return j;
        }
    }
    0
}

// The first grid point, at the front of an array of zeros.
pub fn first_point(sizes: &[u8], divisions: &[u16], firsts: &[u8; 6], point: &mut [u16; 16])
    requires { WithFirsts (lent sizes.now divisions.now) firsts.now × (point.old ≡ replicate 16 0) }
    ensures { let y = first_point sizes.now divisions.now in
        point.new ≡ front y (replicate 16 0) }
{
    for j in 0..sizes.len() {
        let last = usize::from(firsts[j]) + usize::from(sizes[j]) - 1;
        point[last] = divisions[j];
    }
}
