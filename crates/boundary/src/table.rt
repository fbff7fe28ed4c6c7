// The new table, point by point in the order of the table.
ghost use Rattle.std.specs.Prelude.{cond, List, ◌≡◌, ℕ, ◌+◌, ◌≤◌, ◌<◌, length, take};
ghost use Rattle.combinatorics.specs.Front.{front};
ghost use Rattle.grid_points.specs.Grid.{Grid as GridOf, lent};
ghost use Rattle.grid.specs.Made.{IsMade, shape};
ghost use Rattle.boundary_labels.specs.Boundary.{is_interior, boundary_label, boundary_table};
ghost use Rattle.points_in_order.specs.Shifted.{last_but_one, last_one, end_shifted};
ghost use Rattle.boundary.specs.Lent.{FilledBy, PointToLabel, TableToLabel, found_or};

use grid::Grid;

// The new label of a point whose old one is given. Where no index has a 0 behind a positive number there is no 0.
fn label(point: &[u16], previous: &[u8; 16], old: u8) -> u8
    requires { (g : GridOf) × PointToLabel g previous.now point.now }
    ensures { (g : GridOf) → PointToLabel g previous.now point.now
        → result ≡ cond (is_interior point.now) old (boundary_label g point.now) }
{
    for (h, x) in point.iter().enumerate() {
        if *x == 0 && point[usize::from(previous[h])] != 0 {
            return (h + 1) as u8;
        }
    }
    old
}

// The label that was found, or the old one where none was. As in a table, the byte 0 is no label.
fn found_or(found: u8, old: u8) -> u8
    ensures { result ≡ found_or found old }
{
    if found == 0 { old } else { found }
}

// The same for the bytes of a part of the table. The loop only chooses and stores, so that many bytes are written at
// once.
fn fill(old: &[u8], labels: &mut [u8], from: usize, to: usize, found: u8)
    requires { (from ≤ to) × (to ≤ length old.now) × (to ≤ length labels.old) }
    ensures { (table buffer : List ℕ) → length table ≡ length labels.old
        → length buffer ≡ length table → labels.old ≡ front (take from table) buffer
        → FilledBy table old.now found from to
        → labels.new ≡ front (take to table) buffer }
{
    for i in from..to {
        labels[i] = found_or(found, old[i]);
    }
}

// How many points follow, of as many as are left, whose 0s stand at the same indices: 1 goes from the last number to
// the one before it, and both stay positive.
fn more_alike(point: &[u16], left: usize) -> usize
    requires { (2 ≤ length point.now) × (length point.now ≤ 16) }
    ensures { (result ≤ left)
        × (0 < result → (0 < last_but_one point.now) × (result < last_one point.now)) }
{
    let m = point.len();
    if point[m - 2] == 0 {
        return 0;
    }
    let last = usize::from(point[m - 1]);
    if last < 2 {
        return 0;
    }
    if left < last - 1 {
        return left;
    }
    last - 1
}

// The point so many behind this one, where only the last two numbers change.
fn shift_end(point: &mut [u16], by: usize)
    requires in_bounds { (2 ≤ length point.old) × (length point.old ≤ 16) }
    requires by_bound { (by ≤ last_one point.old) × (last_but_one point.old + by < 65536) }
    ensures { point.new ≡ end_shifted point.old by }
{
    if by == 0 {
        return;
    }
    let m = point.len();
    point[m - 2] += by as u16;
    point[m - 1] -= by as u16;
}

// The new labels of all points, from the first on: that of a point, and then those of the points behind it that are
// labelled alike.
fn write_from(
    sizes: &[u8],
    divisions: &[u16],
    firsts: &[u8; 6],
    previous: &[u8; 16],
    old: &[u8],
    point: &mut [u16],
    labels: &mut [u8],
)
    requires { TableToLabel (lent sizes.now divisions.now) firsts.now previous.now old.now point.old
        labels.old }
    ensures { labels.new
        ≡ boundary_table (lent sizes.now divisions.now) old.now }
{
    // No `for`: a turn goes on by as many points as have the label found, which only the turn itself tells.
    let mut k: usize = 0;
    while k < labels.len() {
        let found = label(point, previous, 0);
        labels[k] = found_or(found, old[k]);
        let more = more_alike(point, old.len() - k - 1);
        fill(old, labels, k + 1, k + 1 + more, found);
        shift_end(point, more);
        points_in_order::next_point(sizes, firsts, point);
        k += 1 + more;
    }
}

// The new table of a grid that was made.
pub fn write(grid: Grid, old: &[u8], labels: &mut [u8])
    requires { IsMade grid × (length old.now ≡ grid.points) × (length labels.old ≡ grid.points) }
    ensures { labels.new ≡ boundary_table (shape grid) old.now }
{
    let sizes = &grid.sizes[..grid.blocks];
    let divisions = &grid.divisions[..grid.blocks];
    let mut point = [0u16; 16];
    points_in_order::first_point(sizes, divisions, &grid.firsts, &mut point);
    write_from(
        sizes,
        divisions,
        &grid.firsts,
        &grid.previous,
        old,
        &mut point[..grid.indices],
        labels,
    );
}
