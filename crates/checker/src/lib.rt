// The checker of end simplices from other programs: the customer's call.
#![tactic(auto)]

ghost use Rattle.std.specs.Prelude.{◌≡◌, ◌≤◌};
ghost use Rattle.grid_points.specs.Grid.{lent};
ghost use Rattle.grid.specs.Made.{shape};
ghost use Rattle.check_simplices.specs.Simplices.{verdict};
ghost use Rattle.check_chains.specs.Listed.{listed, Listed};
ghost use Rattle.checker.specs.Check.{check_case, check_answer};
ghost use Rattle.checker.specs.Covered.{Labelled};

use grid::Grid;
use positions::ENTRIES;

mod cover;
mod refusals;

// What the checker says of a list of points. It writes nothing.
#[derive(Clone, Copy)]
pub enum CheckAnswer {
    // The number of the first of questions 1 to 4, 6, 7 and 19 that is answered no.
    Refused(u8),
    // The points are distinct, belong to one simplex and are complete for this block, the first such, counted from 1.
    Yes(u8),
    No,
}

// The verdict on points of the grid.
fn judged(g: Grid, labels: &[u8], numbers: &[u16], count: usize) -> CheckAnswer
    requires { Listed g count numbers.now × Labelled g labels.now × (1 ≤ count) }
    ensures { result ≡ check_case (verdict (shape g) labels.now
        (listed g.indices count numbers.now)) }
{
    if !check_chains::one_chain(g, numbers, count) {
        return CheckAnswer::No;
    }
    let mut binomials = [0u16; ENTRIES];
    positions::binomials(g, &mut binomials);
    let covered = cover::covered(g, &binomials, labels, numbers, count);
    cover::first_whole(g, covered)
}

// Questions 1 to 4, 6, 7 and 19 in this order, on every input, and then the verdict. The points stand one after another
// in `numbers`, m numbers each.
pub fn check(sizes: &[u8], divisions: &[u16], labels: &[u8], numbers: &[u16]) -> CheckAnswer
    ensures { result ≡ check_answer (lent sizes.now divisions.now)
        labels.now numbers.now }
{
    let made = Grid::new(sizes, divisions);
    let code = made.code;
    let g = made.grid;
    if code != 0 {
        return CheckAnswer::Refused(code);
    }
    let number = refusals::first_check_no(g, labels, numbers);
    if number != 0 {
        return CheckAnswer::Refused(number);
    }
    let m = g.indices;
    let count = refusals::whole_points(numbers.len(), m);
    judged(g, labels, numbers, count)
}
