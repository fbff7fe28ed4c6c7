// The position of a grid point in the list of all points, by a table of binomials. A grid here is one that `Grid::new`
// made, and a caller of ours shows that.
#![tactic(auto)]

ghost use Rattle.std.specs.Prelude.{true, ◌≡◌, length, take};
ghost use Rattle.grid_points.specs.Grid.{is_grid_point, position as position_of};
ghost use Rattle.grid.specs.Made.{shape, IsMade};
ghost use Rattle.positions.specs.Binomials.{HasBinomials};
ghost use Rattle.positions.specs.Steps.{after_steps, CanTakeSteps};

use grid::Grid;

mod falls;
mod ranks;
mod tables;

pub use falls::{fall, tails};

// How many numbers the table of binomials has, and how far apart its rows stand.
pub const ENTRIES: usize = 1255;

const ROW: usize = 70;

// The binomials that positions on this grid need, in a table lent by the caller. The entries that no block of the grid
// needs are left free, and nothing reads them: whoever is lent the table asks for no more of it than `HasBinomials`.
pub fn binomials(g: Grid, t: &mut [u16; ENTRIES])
    requires { IsMade g × (length t.old ≡ 1255) }
    ensures { HasBinomials (shape g) t.new }
{
    for j in 0..g.blocks {
        tables::fill_block(t, usize::from(g.sizes[j]), usize::from(g.divisions[j]));
    }
}

// The position of the grid point to which the steps lead from y. It stands at the front of the coordinates after the
// steps.
pub fn position(g: Grid, t: &[u16; ENTRIES], y: &[u16; 16], steps: &[u16; 16]) -> usize
    requires made { IsMade g × HasBinomials (shape g) t.now }
    requires can_take_steps { CanTakeSteps g.indices y.now steps.now
        × (is_grid_point (shape g) (take g.indices (after_steps y.now steps.now)) ≡ true) }
    ensures { result ≡ position_of (shape g) (take g.indices (after_steps y.now steps.now)) }
{
    let mut at: usize = 0;
    for j in 0..g.blocks {
        let rank = ranks::in_block(
            t,
            y,
            steps,
            usize::from(g.firsts[j]),
            usize::from(g.sizes[j]),
            usize::from(g.divisions[j]),
        );
        at = at * usize::from(g.counts[j]) + rank;
    }
    at
}
