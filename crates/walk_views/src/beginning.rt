// The walk at {v}.
ghost use Rattle.std.specs.Prelude.{◌≡◌, ◌≤◌, length, replicate, take};
ghost use Rattle.combinatorics.specs.Front.{front};
ghost use Rattle.grid_points.specs.Grid.{lent};
ghost use Rattle.grid.specs.Made.{IsMade, shape};
ghost use Rattle.place.specs.Problem.{label as label_in};
ghost use Rattle.questions.specs.Questions.{first_no};
ghost use Rattle.walk_calls.specs.Asked.{later_walk_questions};
ghost use Rattle.walk_views.specs.Begun.{begun_of, begun_on, no_walk, start_walk, CanLabelStart};

use crate::Begun;
use grid::Grid;
use label_table::byte_at;
use positions::ENTRIES;
use walk_calls::first_table_no;
use walk_places::{Place, Walk, none};

// Numbers at the front of an array, 0 behind.
fn copied(numbers: &[u16]) -> [u16; 16]
    requires { length numbers.now ≤ 16 }
    ensures { result ≡ front numbers.now (replicate 16 0) }
{
    let mut a = [0u16; 16];
    a[..numbers.len()].copy_from_slice(numbers);
    a
}

// What stands beside a refusal.
fn no_walk() -> Walk
    ensures { result ≡ no_walk }
{
    Walk {
        places: 0,
        labels_read: 0,
        present: none(),
        before: none(),
        start: [0u16; 16],
        divisions: [0u16; 6],
        sizes: [0u8; 6],
        blocks: 0,
        carried: [0u8; 16],
    }
}

// The table's label of the start, whose numbers stand at the front of y.
fn label_of(g: Grid, y: &[u16; 16], labels: &[u8]) -> u8
    requires { CanLabelStart g y.now labels.now }
    ensures { let v = take g.indices y.now in
        result ≡ label_in (begun_on (shape g) v labels.now) v }
{
    let mut binomials = [0u16; ENTRIES];
    positions::binomials(g, &mut binomials);
    let steps = [16u16; 16];
    byte_at(labels, positions::position(g, &binomials, y, &steps))
}

// The walk at {v}, behind questions 1 to 7.
fn start_on(g: Grid, start: &[u16], labels: &[u8]) -> Walk
    requires { IsMade g × (first_no (later_walk_questions g start.now labels.now) ≡ 0) }
    ensures { let v = start.now in
        result ≡ start_walk (shape g) v (label_in (begun_on (shape g) v labels.now) v) }
{
    let y = copied(start);
    let mut carried = [0u8; 16];
    carried[0] = label_of(g, &y, labels);
    let Grid {
        divisions,
        sizes,
        ..
    } = g;
    let present = Place {
        first: y,
        order: [0u32; 16],
        count: 1,
    };
    Walk {
        places: 1,
        labels_read: 1,
        present,
        before: none(),
        start: y,
        divisions,
        sizes,
        blocks: g.blocks as u8,
        carried,
    }
}

// Makes the walk at {v}, with 1 as its places so far and its labels read: questions 1 to 7 about any sizes, divisions,
// start and labels.
pub fn at_start(sizes: &[u8], divisions: &[u16], start: &[u16], labels: &[u8]) -> Begun
    ensures { result ≡ begun_of
        (lent sizes.now divisions.now) start.now labels.now }
{
    let made = Grid::new(sizes, divisions);
    if made.code != 0 {
        return Begun {
            code: made.code,
            walk: no_walk(),
        };
    }
    let number = first_table_no(made.grid, start, labels);
    if number != 0 {
        return Begun {
            code: number,
            walk: no_walk(),
        };
    }
    Begun {
        code: 0,
        walk: start_on(made.grid, start, labels),
    }
}
