// The coefficient list of one point with another as the start, where it is 0s and 1s. Each coefficient gives the next
// round the block.
ghost use Rattle.std.specs.Prelude.{true, ◌≡◌, ◌≤◌};
ghost use Rattle.grid_points.specs.Grid.{is_grid_point};
ghost use Rattle.grid.specs.Made.{IsMade, shape};
ghost use Rattle.check_chains.specs.Follow.{CanFollow, FollowedFrom, FoundOnBlock, FoundOf};

use arrays::add;
use grid::Grid;

// The set of the indices with 1, if there is nothing but 0s and 1s, on the block of the indices from first up to end,
// beginning with c.
fn follow_from(p: &[u16], z: &[u16], first: usize, end: usize, c: usize, old: u16) -> Option<u16>
    requires { CanFollow p.now z.now first end old × (c ≤ 1) }
    ensures { FollowedFrom p.now z.now first end c old result }
{
    let mut set = old;
    let mut one = c;
    for h in first..end {
        if one == 1 {
            set = add(set, h);
        }
        let sum = one + usize::from(p[h]);
        let less = usize::from(z[h]);
        if sum < less || 1 < sum - less {
            return None;
        }
        one = sum - less;
    }
    if one == c { Some(set) } else { None }
}

// On a block: the first coefficient is 0 or 1.
fn on_block(p: &[u16], z: &[u16], first: usize, end: usize, old: u16) -> Option<u16>
    requires { CanFollow p.now z.now first end old }
    ensures { FoundOnBlock p.now z.now first end old result }
{
    follow_from(p, z, first, end, 0, old).or_else(|| follow_from(p, z, first, end, 1, old))
}

// On all blocks.
pub fn set_from(g: Grid, p: &[u16], z: &[u16]) -> Option<u16>
    requires { IsMade g × (is_grid_point (shape g) p.now ≡ true) × (is_grid_point (shape g) z.now ≡ true) }
    ensures { FoundOf (shape g) p.now z.now result }
{
    let mut set: u16 = 0;
    for j in 0..g.blocks {
        let first = usize::from(g.firsts[j]);
        set = on_block(p, z, first, first + usize::from(g.sizes[j]), set)?;
    }
    Some(set)
}
