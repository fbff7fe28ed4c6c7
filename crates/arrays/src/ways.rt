// The ways round the blocks of a grid.
ghost use Rattle.std.specs.Prelude.{◌≡◌, ℕ, ◌<◌};
ghost use Rattle.grid_points.specs.Grid.{at, size, block_of};
ghost use Rattle.grid.specs.Made.{IsMade, shape};
ghost use Rattle.rules.specs.Ready.{IsRound, RoundBelow};

use grid::Grid;
use rules::Round;

// The size of the block of each index.
fn block_sizes(g: Grid) -> [u8; 16]
    requires { IsMade g }
    ensures { (h : ℕ) → h < g.indices → at result h ≡ size (shape g) (block_of (shape g) h) }
{
    let mut a = [0u8; 16];
    for h in 0..g.indices {
        a[h] = g.sizes[usize::from(g.block[h])];
    }
    a
}

// The ways that it keeps, with the size of the block of each index.
pub fn round_of(g: Grid) -> Round
    requires { IsMade g }
    ensures { IsRound (shape g) result
        × RoundBelow result
        × (result.previous ≡ g.previous)
        × (result.next ≡ g.next) }
{
    let previous = g.previous;
    let next = g.next;
    Round {
        previous,
        next,
        sizes: block_sizes(g),
    }
}
