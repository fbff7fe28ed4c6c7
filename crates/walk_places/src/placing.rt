// What is told of a place that a walk keeps, or is moved to: T and U, the positions of its points, and, where it is
// checked, their labels.
ghost use Rattle.std.specs.Prelude.{List, ℕ, take};
ghost use Rattle.grid.specs.Made.{IsMade, shape};
ghost use Rattle.walk_recogniser.specs.Kept.{Recognised, StaysAt};
ghost use Rattle.walk_recogniser.specs.Pieces.{bare_mark};
ghost use Rattle.rules.specs.Read.{mark_of};
ghost use Rattle.walk_places.specs.Placing.{BothMarked, CanPlace, CanSee, GoesTo};
ghost use Rattle.walk_places.specs.Walks.{place_of, table_on};

use crate::keeping::held_in;
use crate::{Both, Place, Walk};
use arrays::{Held, round_of};
use grid::Grid;
use positions::ENTRIES;
use walk_recogniser::{Sets, read_labels, recognise};

// T and U of the place with the first point and the order that are held, if it is one but for its labels; the
// coefficients and the positions of the points, in marks without labels, come beside them.
pub fn placed(g: Grid, w: Walk, held: &mut Held, n: usize) -> Option<Sets>
    requires { CanPlace g w n }
    ensures stays { StaysAt held.old held.new }
    ensures recognised { (labels : List ℕ) → Recognised (table_on g w labels) (bare_mark (shape g))
        (take g.indices held.new.first) (take n held.new.order) held.new result }
{
    let round = round_of(g);
    let mut binomials = [0u16; ENTRIES];
    positions::binomials(g, &mut binomials);
    recognise(g, &binomials, &w.start[..g.indices], &round, held, n)
}

// The same with the labels of the points in the marks.
pub fn seen(g: Grid, w: Walk, labels: &[u8], held: &mut Held, n: usize) -> Option<Sets>
    requires { CanSee g w labels.now n }
    ensures stays { StaysAt held.old held.new }
    ensures recognised { Recognised (table_on g w labels.now) (mark_of (table_on g w labels.now))
        (take g.indices held.new.first) (take n held.new.order) held.new result }
{
    let sets = placed(g, w, held, n)?;
    read_labels(labels, n, &mut held.marks);
    Some(sets)
}

// The walk's present place and the one to which it is moved, without their labels.
pub fn both_placed(g: Grid, w: Walk, next: Place) -> Both
    requires { IsMade g × ((labels : List ℕ) × GoesTo (shape g) w labels next) }
    ensures { (labels : List ℕ) → (G : GoesTo (shape g) w labels next)
        → BothMarked (table_on g w labels) (place_of (shape g) w.present) G.to result }
{
    let present = w.present;
    let n = usize::from(present.count) - 1;
    let k = usize::from(next.count) - 1;
    let mut here = held_in(present);
    let mut there = held_in(next);
    let Some(a) = placed(g, w, &mut here, n) else {
        unreachable!()
    };
    let Some(b) = placed(g, w, &mut there, k) else {
        unreachable!()
    };
    let from = here.marks;
    let onto = there.marks;
    Both {
        from,
        n,
        t: a.t,
        u: a.u,
        onto,
        k,
        t2: b.t,
        u2: b.u,
    }
}
