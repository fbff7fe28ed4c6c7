// The position of a point by that of the point beside it, in a grid of one block.
ghost use Rattle.std.specs.Prelude.{cond, ◌≡◌, ◌≤◌, ◌<◌, ltb};
ghost use Rattle.grid.specs.Made.{shape};
ghost use Rattle.moves.specs.Held.{state_of};
ghost use Rattle.positions.specs.Binomials.{Measured};
ghost use Rattle.rules.specs.Read.{FallsBeside};
ghost use Rattle.marks.specs.Reading.{CanWeigh, FallsBy, HasOrder, IsRight};

use arrays::{Held, first_outside, index_at, position_at};
use grid::Grid;
use moves::Status;
use positions::ENTRIES;
use rules::Round;

// How many steps before a point of the place have gone round the block, in a grid of one block: none before the first
// point, and else 1 where the position is above the first's, since such a step raises it and every other lowers it.
fn gone_round(i: usize, position: usize, first: usize) -> usize
    ensures { (result ≡ cond (ltb 0 i) (cond (ltb first position) 1 0) 0) × (result ≤ 1) }
{
    usize::from(0 < i && first < position)
}

// By how much a step in a grid of one block lowers the position. It takes from b, an index before its own, h; lag is
// how many steps before it have gone round the block.
fn fall_at(
    g: Grid,
    binomials: &[u16; ENTRIES],
    tails: &[u32; 16],
    held: &Held,
    h: usize,
    b: usize,
    lag: usize,
) -> usize
    requires { Measured g binomials.now × CanWeigh g tails.now held.now.coefficients h b lag }
    ensures { FallsBy g tails.now held.now.coefficients h b lag result }
{
    let most = tails[h] as usize + usize::from(held.coefficients[h]);
    positions::fall(
        g,
        binomials,
        h,
        b,
        most - (usize::from(held.coefficients[0]) + lag),
    )
}

// In a grid of one block, the position of the point that has just come in by the mark of the point before it, where the
// step to it takes from an index before its own.
pub fn by_step_to(
    g: Grid,
    binomials: &[u16; ENTRIES],
    tails: &[u32; 16],
    round: &Round,
    held: &Held,
    s: Status,
) -> Option<usize>
    requires measured { Measured g binomials.now × (g.blocks ≡ 1) × (0 < s.active) }
    requires falls { let a = state_of round.now held.now s in HasOrder a s × FallsBeside (shape g) tails.now a }
    ensures { IsRight g (state_of round.now held.now s) result }
{
    let i = s.active;
    let h = index_at(&held.order, s.count, i - 1);
    let b = first_outside(&round.previous, &round.sizes, s.u, h);
    if h <= b {
        return None;
    }
    let near = position_at(&held.marks, s.count, i - 1);
    let lag = gone_round(i, near, position_at(&held.marks, s.count, 0));
    Some(near - fall_at(g, binomials, tails, held, h, b, lag))
}

// The same by the mark of the point behind it, where the step from it takes from an index before its own.
pub fn by_step_from(
    g: Grid,
    binomials: &[u16; ENTRIES],
    tails: &[u32; 16],
    round: &Round,
    held: &Held,
    s: Status,
) -> Option<usize>
    requires measured { Measured g binomials.now × (g.blocks ≡ 1) × (s.active < s.count) }
    requires falls { let a = state_of round.now held.now s in HasOrder a s × FallsBeside (shape g) tails.now a }
    ensures { IsRight g (state_of round.now held.now s) result }
{
    let i = s.active;
    let h = index_at(&held.order, s.count, i);
    let b = first_outside(&round.previous, &round.sizes, s.u, h);
    if h <= b {
        return None;
    }
    let far = position_at(&held.marks, s.count, i + 1);
    let lag = gone_round(i, far, position_at(&held.marks, s.count, 0));
    Some(far + fall_at(g, binomials, tails, held, h, b, lag))
}
