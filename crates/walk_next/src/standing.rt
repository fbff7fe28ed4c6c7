// What comes next on a walk that passes questions 1 to 7: 20 and 16, and the two moves from its present place.
ghost use Rattle.std.specs.Prelude.{◌≡◌};
ghost use Rattle.questions.specs.Questions.{first_no};
ghost use Rattle.grid.specs.Made.{IsMade, shape};
ghost use Rattle.place.specs.Questions.{table_questions};
ghost use Rattle.walk_next.specs.Standing.{CanStand, counts_in_range};
ghost use Rattle.walk_ways.specs.Standing.{next_in};
ghost use Rattle.walk_places.specs.Walks.{table_on};

use crate::choosing::chosen;
use crate::spares::spare;
use arrays::round_of;
use grid::Grid;
use moves::Status;
use walk_labels::carries;
use walk_places::{Walk, held_in, is_kept, seen};
use walk_ways::{Next, refused};

// Whether the places so far are from 1 to the bound, and the labels read from 1 to the places.
fn counts_in_range(g: Grid, places: u64, read: u64) -> bool
    requires { IsMade g }
    ensures { result ≡ counts_in_range (shape g) places read }
{
    0 < read && read <= places && places <= g.bound()
}

// What comes next from a present place that is kept rightly: it is recognised, its labels must be those carried and
// have all of T, and one of the two moves from it must lead back.
fn stand(g: Grid, w: Walk, labels: &[u8], n: usize) -> Next
    requires { CanStand g w labels.now n }
    ensures { result ≡ next_in g w labels.now }
{
    let mut held = held_in(w.present);
    let Some(sets) = seen(g, w, labels, &mut held, n) else {
        return refused(20);
    };
    if !carries(&held.marks, n, &w.carried) {
        return refused(20);
    }
    let spared = spare(&held.marks, n, sets.t);
    if spared.seen != sets.t {
        return refused(20);
    }
    let round = round_of(g);
    let here = Status {
        rule: 1,
        count: n,
        t: sets.t,
        u: sets.u,
        active: spared.point,
    };
    chosen(g, &round, &held, labels, w, here)
}

// What comes next on a walk whose grid is made, and which passes questions 1 to 7: 20 and 16 are asked, and the two
// moves from its present place are made.
pub fn next_on(g: Grid, w: Walk, labels: &[u8]) -> Next
    requires { IsMade g × (first_no (table_questions (table_on g w labels.now)) ≡ 0) }
    ensures { result ≡ next_in g w labels.now }
{
    if !counts_in_range(g, w.places, w.labels_read) || !is_kept(w.present, g.indices) {
        return refused(20);
    }
    stand(g, w, labels, usize::from(w.present.count) - 1)
}
