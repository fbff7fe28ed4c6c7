// Up to 16 numbers at the front of an array: the order of T and the marks of the points.
ghost use Rattle.std.specs.Prelude.{map, ◌≡◌, suc, ◌+◌, ◌-◌, ◌≤◌, ◌<◌, length, drop, take};
ghost use Rattle.combinatorics.specs.Edits.{insert_at, remove_at, swap_at, rotate_left, rotate_right, found};
ghost use Rattle.grid_points.specs.Grid.{at};
ghost use Rattle.rules.specs.Ready.{HasEntry, IsEntry};
ghost use Rattle.rules.specs.Moves.{mark_label, mark_position};

// Entry e of the first n: an index.
pub fn index_at(order: &[u32; 16], n: usize, e: usize) -> usize
    requires { HasEntry order.now n e }
    ensures { IsEntry order.now n e result }
{
    order[e] as usize
}

// The label in a mark. Of an index of the order it is the index itself.
pub fn label_in(mark: u32) -> u32
    ensures { result ≡ mark_label mark }
{
    mark & 255
}

// The position in a mark.
fn mark_position(mark: u32) -> usize
    ensures { (result ≡ mark_position mark) × (result < 16777216) }
{
    (mark >> 8) as usize
}

// The position in mark i of the first n + 1.
pub fn position_at(marks: &[u32; 16], n: usize, i: usize) -> usize
    requires { (i ≤ n) × (n ≤ 15) }
    ensures { (result ≡ mark_position (at (take (suc n) marks.now) i)) × (result < 16777216) }
{
    mark_position(marks[i])
}

// x put before entry at of the first n; the entries behind the first n + 1 stay.
pub fn insert(a: &mut [u32; 16], n: usize, at: usize, x: u32)
    requires { (at ≤ n) × (n ≤ 15) }
    ensures { (take (n + 1) a.new ≡ insert_at at x (take n a.old))
        × (length a.new ≡ 16)
        × (drop (n + 1) a.new ≡ drop (n + 1) a.old) }
{
    for k in (at..n).rev() {
        a[k + 1] = a[k];
    }
    a[at] = x;
}

// Entry at of the first n taken out; the entries from the last of them on stay, so that one stands there still.
pub fn remove(a: &mut [u32; 16], n: usize, at: usize)
    requires { (at < n) × (n ≤ 16) }
    ensures { (take (n - 1) a.new ≡ remove_at at (take n a.old))
        × (length a.new ≡ 16)
        × (drop (n - 1) a.new ≡ drop (n - 1) a.old) }
{
    for k in at..n - 1 {
        a[k] = a[k + 1];
    }
}

// The first of the first n goes behind the others; the entries behind the first n stay.
pub fn rotate_left(a: &mut [u32; 16], n: usize)
    requires { (0 < n) × (n ≤ 16) }
    ensures { (take n a.new ≡ rotate_left (take n a.old))
        × (length a.new ≡ 16)
        × (drop n a.new ≡ drop n a.old) }
{
    let x = a[0];
    remove(a, n, 0);
    a[n - 1] = x;
}

// The last of the first n goes before the others; the entries behind the first n stay.
pub fn rotate_right(a: &mut [u32; 16], n: usize)
    requires { (0 < n) × (n ≤ 16) }
    ensures { (take n a.new ≡ rotate_right (take n a.old))
        × (length a.new ≡ 16)
        × (drop n a.new ≡ drop n a.old) }
{
    let x = a[n - 1];
    insert(a, n - 1, 0, x);
}

// Entries i and i + 1 change places.
pub fn exchange(a: &mut [u32; 16], i: usize)
    requires { i + 1 < 16 }
    ensures { (a.new ≡ swap_at i a.old) × (length a.new ≡ 16) }
{
    a.swap(i, i + 1);
}

// The first of the first n marks that has the label x, entry but passed over; n if there is none. The order has its
// indices as labels.
pub fn find(a: &[u32; 16], n: usize, x: u32, but: usize) -> usize
    requires { n ≤ 16 }
    ensures { result ≡ found x but (map mark_label (take n a.now)) }
{
    for k in 0..n {
        if label_in(a[k]) == x && k != but {
            return k;
        }
    }
    n
}
