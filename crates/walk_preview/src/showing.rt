// The preview: what the moving call would do to a copy of the walk.
ghost use Rattle.std.specs.Prelude.{List, ◌≡◌, ℕ};
ghost use Rattle.walks.specs.Preview.{preview as preview_of};
ghost use Rattle.walk_places.specs.Walks.{walk_of};
ghost use Rattle.walk_preview.specs.Previews.{CanShow, MovesTo, change_in, change_on, shown_as};

use crate::changes::{change_for, index_of, other};
use crate::{Change, Shown};
use grid::Grid;
use walk_calls::{Call, grid_in, moved};
use walk_places::{Place, Walk, both_placed};
use walk_ways::WalkAnswer;

// What changes from the walk's present place to the next, whatever the table over which a call moves it so: the points
// are told by their positions, and no label is read.
fn change_on(g: Grid, w: Walk, next: Place, rule: u8) -> Change
    requires { (labels : List ℕ) × CanShow g w labels next rule }
    ensures { (labels : List ℕ) → CanShow g w labels next rule → result ≡ change_on g w labels }
{
    let b = both_placed(g, w, next);
    let come = other(&b.onto, b.k, &b.from, b.n);
    let gone = other(&b.from, b.n, &b.onto, b.k);
    change_for(rule, come, gone, index_of(b.t, b.u, b.t2, b.u2))
}

// The same, on the grid of the walk.
fn change_in(w: Walk, next: Place, rule: u8) -> Change
    requires { (labels : List ℕ) × MovesTo w labels next rule }
    ensures { (labels : List ℕ) → MovesTo w labels next rule → result ≡ change_in w labels }
{
    change_on(grid_in(w).grid, w, next, rule)
}

// Shows the move before it is made: the moving call's refusals and ends, and what a move would change. Nothing is
// moved.
pub fn preview(w: Walk, labels: &[u8]) -> Shown
    ensures { result ≡ shown_as (preview_of (walk_of w) labels.now) }
{
    let Call {
        answer,
        simplex,
        walk,
    } = moved(w, labels);
    let change = match answer {
        WalkAnswer::Moved(rule) => change_in(w, walk.present, rule),
        WalkAnswer::Refused(_) | WalkAnswer::Ended { .. } => Change::none(),
    };
    Shown {
        answer,
        simplex,
        change,
    }
}
