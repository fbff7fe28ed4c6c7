// The points of a walk's present place.
ghost use Rattle.std.specs.Prelude.{◌≡◌};
ghost use Rattle.questions.specs.Questions.{first_no};
ghost use Rattle.grid.specs.Made.{IsMade, shape};
ghost use Rattle.place.specs.Questions.{table_questions};
ghost use Rattle.walk_places.specs.Walks.{table_on};
ghost use Rattle.walk_views.specs.Viewed.{CanPoint, no_points, points_at, points_of, points_on};

use crate::PlacePoints;
use arrays::{Held, round_of};
use grid::Grid;
use moves::{Status, put_points};
use walk_calls::{first_table_no, grid_in};
use walk_next::spare;
use walk_places::{Walk, held_in, is_kept, seen};
use walk_recogniser::Sets;

// A refusal.
fn no_points(code: u8) -> PlacePoints
    ensures { result ≡ no_points code }
{
    PlacePoints {
        code,
        count: 0,
        numbers: [0u16; 256],
    }
}

// The points of a place that is recognised.
fn put(g: Grid, w: Walk, labels: &[u8], held: &Held, n: usize, sets: Sets) -> PlacePoints
    requires { CanPoint g w labels.now held.now n sets }
    ensures { result ≡ points_at (shape g) w }
{
    let s = Status {
        rule: 1,
        count: n,
        t: sets.t,
        u: sets.u,
        active: 0,
    };
    let round = round_of(g);
    let mut numbers = [0u16; 256];
    let count = put_points(&held, &round, s, g.indices, 0, &mut numbers);
    PlacePoints {
        code: 0,
        count,
        numbers,
    }
}

// The points, on a walk that passes questions 1 to 7: 20 is asked of the present place alone.
fn points_on(g: Grid, w: Walk, labels: &[u8]) -> PlacePoints
    requires { IsMade g × (first_no (table_questions (table_on g w labels.now)) ≡ 0) }
    ensures { result ≡ points_on (shape g) w labels.now }
{
    if !is_kept(w.present, g.indices) {
        return no_points(20);
    }
    let n = usize::from(w.present.count) - 1;
    let mut held = held_in(w.present);
    let Some(sets) = seen(g, w, labels, &mut held, n) else {
        return no_points(20);
    };
    let spared = spare(&held.marks, n, sets.t);
    if spared.seen != sets.t {
        return no_points(20);
    }
    put(g, w, labels, &held, n, sets)
}

// Gives the points of the present place: questions 1 to 7 are put, and 20 of the place alone.
pub fn points(w: Walk, labels: &[u8]) -> PlacePoints
    ensures { result ≡ points_of w labels.now }
{
    let made = grid_in(w);
    if made.code != 0 {
        return no_points(made.code);
    }
    let g = made.grid;
    let number = first_table_no(g, &w.start[..g.indices], labels);
    if number != 0 {
        return no_points(number);
    }
    points_on(g, w, labels)
}
