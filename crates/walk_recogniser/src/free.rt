// The sets T and U of a first point and an order, and that every block has an index in neither.
ghost use Rattle.std.specs.Prelude.{cond, ◌≡◌, ◌+◌, ◌≤◌, eqb, length};
ghost use Rattle.grid.specs.Made.{IsMade};
ghost use Rattle.walk_recogniser.specs.Pieces.{SetsOf, IsFree};

use crate::Sets;
use arrays::{add, has, in_neither, without};
use grid::Grid;

// T has the first n indices of the order, where these are below m and all different; U has what T leaves of the set
// `zeros`.
pub fn sets_of(order: &[u32; 16], n: usize, m: usize, zeros: u16) -> Option<Sets>
    requires { (n ≤ 16) × (m ≤ 16) × (length order.now ≡ 16) }
    ensures { SetsOf order.now n m zeros result }
{
    let mut t: u16 = 0;
    let mut u = zeros;
    for &index in &order[..n] {
        let h = index as usize;
        if m <= h || has(t, h) {
            return None;
        }
        t = add(t, h);
        u = without(u, h);
    }
    Some(Sets { t, u })
}

// An index of block b in neither set is met, the first `met` blocks having one: how many of the first have one now.
fn met_in(b: u8, met: usize) -> usize
    requires { met ≤ 16 }
    ensures { result ≡ cond (eqb b met) (met + 1) met }
{
    if usize::from(b) == met { met + 1 } else { met }
}

// Whether every block has an index in neither set, and each such index has coefficient 0. The blocks are met in order:
// `met` is how many of the first have such an index.
pub fn is_free(g: Grid, c: &[u16; 16], t: u16, u: u16) -> bool
    requires { IsMade g }
    ensures { IsFree g c.now t u result }
{
    let mut met: usize = 0;
    for h in 0..g.indices {
        if in_neither(t, u, h) {
            if c[h] != 0 {
                return false;
            }
            met = met_in(g.block[h], met);
        }
    }
    met == g.blocks
}
