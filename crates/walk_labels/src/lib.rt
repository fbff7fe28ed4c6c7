// The labels that a walk carries: whether they are those of its place, and the labels of the next place. A place's
// points are given by their marks, so that nothing here knows of grids.
#![tactic(auto)]

ghost use Rattle.std.specs.Prelude.{cond, ◌≡◌, ◌≤◌, ◌<◌, eqb, leb, length, get_or};
ghost use Rattle.combinatorics.specs.Lists.{same};
ghost use Rattle.grid_points.specs.Grid.{at};
ghost use Rattle.walk_labels.specs.Carrying.{CanCarry, CarriedOver, FoundIn, labels_in_marks};

use arrays::{label_in, position_at};
use label_table::byte_at;

// The labels of a place's points, with 0 behind, and whether one of the points was not in the place before.
#[derive(Clone, Copy)]
pub struct Carried {
    pub labels: [u8; 16],
    pub came_in: bool,
}

// The label in mark k of the first n + 1, and 0 behind them.
fn label_at(marks: &[u32; 16], n: usize, k: usize) -> usize
    requires { (n ≤ 15) × (k ≤ 15) × (length marks.now ≡ 16) }
    ensures { result ≡ at (labels_in_marks marks.now n) k }
{
    if n < k {
        return 0;
    }
    label_in(marks[k]) as usize
}

// Whether the labels carried are those in the first n + 1 marks, with 0 behind.
pub fn carries(marks: &[u32; 16], n: usize, carried: &[u8; 16]) -> bool
    requires { (n ≤ 15) × (length marks.now ≡ 16) × (length carried.now ≡ 16) }
    ensures { result ≡ same eqb carried.now (labels_in_marks marks.now n) }
{
    for (k, &label) in carried.iter().enumerate() {
        if usize::from(label) != label_at(marks, n, k) {
            return false;
        }
    }
    true
}

// The number of the first of n + 1 marks that is this one; n + 1 where none is.
fn found(marks: &[u32; 16], n: usize, mark: u32) -> usize
    requires { (n ≤ 15) × (length marks.now ≡ 16) }
    ensures { FoundIn marks.now n mark result }
{
    for (i, &other) in marks[..=n].iter().enumerate() {
        if other == mark {
            return i;
        }
    }
    n + 1
}

// The label carried for point i of n + 1, or, where i is none of them, the table's at a position.
fn label_of(carried: &[u8; 16], n: usize, i: usize, table: &[u8], position: usize) -> u8
    requires { (n ≤ 15) × (position < length table.now) }
    ensures { result ≡ cond (leb i n) (at carried.now i) (get_or table.now position 0) }
{
    if i <= n {
        return carried[i];
    }
    byte_at(table, position)
}

// The labels of the k + 1 points of the next place. A point that stays keeps the label that is carried for it, and only
// the label of one that comes in is read from the table.
pub fn carry(
    marks: &[u32; 16],
    n: usize,
    carried: &[u8; 16],
    next: &[u32; 16],
    k: usize,
    table: &[u8],
) -> Carried
    requires { CanCarry marks.now n next.now k table.now }
    ensures { CarriedOver marks.now n carried.now next.now k
        table.now result }
{
    let mut labels = [0u8; 16];
    let mut came_in = false;
    for (j, &mark) in next[..=k].iter().enumerate() {
        let i = found(marks, n, mark);
        let position = position_at(next, k, j);
        labels[j] = label_of(carried, n, i, table, position);
        if n < i {
            came_in = true;
        }
    }
    Carried { labels, came_in }
}
