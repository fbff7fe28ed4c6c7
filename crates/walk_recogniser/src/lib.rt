// Whether a first point and an order of indices are the points of a place, its labels apart, and what a move from there
// looks at; and the labels of its points. What is public here is for the call that moves a walk, which shows what it
// asks.
#![tactic(auto)]

ghost use Rattle.std.specs.Prelude.{take};
ghost use Rattle.grid.specs.Made.{shape};
ghost use Rattle.walk_recogniser.specs.Kept.{CanRecognise, Recognised, StaysAt};
ghost use Rattle.walk_recogniser.specs.Pieces.{bare_mark, started_on};

mod coefficients;
mod free;
mod points;

use arrays::{Held, zeros};
use coefficients::coefficients;
use free::{is_free, sets_of};
use grid::Grid;
use points::mark_points;
pub use points::read_labels;
use positions::ENTRIES;
use rules::Round;

// T and U as masks.
#[derive(Clone, Copy)]
pub struct Sets {
    pub t: u16,
    pub u: u16,
}

// Recognises the first n + 1 points of the first point and the order that are held, and puts the first point's
// coefficients and the positions of all points, in marks without labels, beside them. Where they are none, the
// coefficients may stand there already, and a caller that is told None reads neither.
pub fn recognise(
    g: Grid,
    binomials: &[u16; ENTRIES],
    start: &[u16],
    round: &Round,
    held: &mut Held,
    n: usize,
) -> Option<Sets>
    requires { CanRecognise g binomials.now start.now round.now n }
    ensures stays { StaysAt held.old held.new }
    ensures recognised { Recognised (started_on g start.now) (bare_mark (shape g))
        (take g.indices held.new.first) (take n held.new.order) held.new result }
{
    let m = g.indices;
    if !g.is_grid_point(&held.first[..m]) {
        return None;
    }
    let sets = sets_of(&held.order, n, m, zeros(&held.first, m))?;
    held.coefficients = coefficients(g, start, &held.first);
    if !is_free(g, &held.coefficients, sets.t, sets.u) {
        return None;
    }
    held.marks = mark_points(g, binomials, round, held, sets.u, n)?;
    Some(sets)
}
