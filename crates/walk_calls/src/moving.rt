// The moving call by value.
ghost use Rattle.std.specs.Prelude.{cond, List, ◌≡◌, ℕ, ◌<◌, leb};
ghost use Rattle.grid.specs.Made.{IsMade, shape};
ghost use Rattle.walk_calls.specs.Moving.{CarriesTo, Completes, GridIn, call_on, unmoved_as};
ghost use Rattle.walk_places.specs.Placing.{GoesTo};
ghost use Rattle.walk_places.specs.Walks.{walk_grid, place_of, table_on};
ghost use Rattle.walk_calls.specs.Calls.{call_of, walk_moved_to};

use crate::Call;
use crate::asking::first_table_no;
use grid::{Grid, Made};
use walk_labels::{Carried, carry};
use walk_next::next_on;
use walk_places::{Place, Walk, both_placed};
use walk_ways::{Next, WalkAnswer};

// The labels of the place to which the walk is moved: those that it carries, and the table's of a point that comes in.
// They are those of every table that has the first and, at a point that comes in, the second.
fn carried_to(g: Grid, w: Walk, labels: &[u8], next: Place) -> Carried
    requires { IsMade g × GoesTo (shape g) w labels.now next }
    ensures { (G : GoesTo (shape g) w labels.now next) (full : List ℕ)
        → Completes g w labels.now G.to full
        → CarriesTo (table_on g w full) (place_of (shape g) w.present) G.to result }
{
    let b = both_placed(g, w, next);
    carry(&b.from, b.n, &w.carried, &b.onto, b.k, labels)
}

// The walk moved on to a place: what was the present place is then the one before.
fn moved_to(w: Walk, place: Place, on: Carried) -> Walk
    requires { (w.places < 18446744073709551615) × (w.labels_read < 18446744073709551615) }
    ensures { result ≡ walk_moved_to w place on }
{
    // A variable, since the checker covers no literal that takes an array out of another struct's field.
    let carried = on.labels;
    Walk {
        places: w.places + 1,
        labels_read: w.labels_read + u64::from(on.came_in),
        present: place,
        before: w.present,
        carried,
        ..w
    }
}

// The call, once the grid is made: questions 5 to 7, and then what comes next.
fn call_on(g: Grid, w: Walk, labels: &[u8]) -> Call
    requires { IsMade g }
    ensures { result ≡ call_on (shape g) w labels.now }
{
    let number = first_table_no(g, &w.start[..g.indices], labels);
    if number != 0 {
        return unmoved(w, number);
    }
    let Next {
        answer,
        simplex,
        place,
    } = next_on(g, w, labels);
    let walk = match answer {
        WalkAnswer::Moved(_) => moved_to(w, place, carried_to(g, w, labels, place)),
        WalkAnswer::Refused(_) | WalkAnswer::Ended { .. } => w,
    };
    Call {
        answer,
        simplex,
        walk,
    }
}

// A refusal: the walk is as it was.
fn unmoved(w: Walk, number: u8) -> Call
    ensures { result ≡ unmoved_as w number }
{
    Call {
        answer: WalkAnswer::Refused(number),
        simplex: [0u16; 256],
        walk: w,
    }
}

// A number of blocks that has its places in a walk: more than six are no grid's, and neither is none.
fn six(blocks: u8) -> usize
    ensures { result ≡ cond (leb blocks 6) blocks 0 }
{
    if 6 < blocks { 0 } else { usize::from(blocks) }
}

// The grid of a walk, and the number of the first of questions 1 to 4 that is answered no.
pub fn grid_in(w: Walk) -> Made
    ensures { GridIn (walk_grid w) result }
{
    let blocks = six(w.blocks);
    Grid::new(&w.sizes[..blocks], &w.divisions[..blocks])
}

// Moves a walk on by one place: questions 1 to 7 on its own grid and start and the table lent, then 20 and 16. At an
// end, and where it is refused, the walk is as it was.
pub fn moved(w: Walk, labels: &[u8]) -> Call
    ensures { result ≡ call_of w labels.now }
{
    let made = grid_in(w);
    if made.code != 0 {
        return unmoved(w, made.code);
    }
    call_on(made.grid, w, labels)
}
