// Places as they are kept.
ghost use Rattle.std.specs.Prelude.{◌≡◌, ◌≤◌, length, take, replicate};
ghost use Rattle.combinatorics.specs.Front.{front};
ghost use Rattle.walk_places.specs.Walks.{holds_numbers, kept_as, nowhere, same_place};

use crate::Place;
use arrays::{Held, padded};

// The first n numbers of the order, 0 behind them.
fn cut(order: &[u32; 16], n: usize) -> [u32; 16]
    requires { (n ≤ 16) × (length order.now ≡ 16) }
    ensures { result ≡ front (take n order.now) (replicate 16 0) }
{
    let mut a = [0u32; 16];
    a[..n].copy_from_slice(&order[..n]);
    a
}

// The place with the first m numbers of the first point, and the first n indices of the order.
pub fn kept_as(first: &[u16; 16], m: usize, order: &[u32; 16], n: usize) -> Place
    requires m_bound { (m ≤ 16) × (length first.now ≡ 16) }
    requires n_bound { (n ≤ 15) × (length order.now ≡ 16) }
    ensures { result ≡ kept_as m first.now order.now n }
{
    Place {
        first: padded(first, m),
        order: cut(order, n),
        count: n as u8 + 1,
    }
}

// What is held of a place that is kept, before its coefficients and marks are found.
pub fn held_in(p: Place) -> Held
    ensures { (result.first ≡ p.first)
        × (result.order ≡ p.order)
        × (result.coefficients ≡ replicate 16 0)
        × (result.marks ≡ replicate 16 0) }
{
    let first = p.first;
    let order = p.order;
    Held {
        first,
        coefficients: [0; 16],
        order,
        marks: [0; 16],
    }
}

// No place.
pub fn none() -> Place
    ensures { result ≡ nowhere }
{
    Place {
        first: [0u16; 16],
        order: [0u32; 16],
        count: 0,
    }
}

// Whether two places are kept alike. The order of each has 16 numbers, which a caller that holds it within a struct
// learns here.
pub fn same_place(a: Place, b: Place) -> bool
    ensures { (result ≡ same_place a b) × (length b.order ≡ 16) }
{
    a == b
}

// Whether a place is kept rightly: from 1 to 16 points, and 0 behind the numbers. Its arrays have 16 numbers, which a
// caller that holds it within a struct learns here.
pub fn is_kept(p: Place, m: usize) -> bool
    requires { m ≤ 16 }
    ensures { (result ≡ holds_numbers m p) × (length p.first ≡ 16) × (length p.order ≡ 16) }
{
    if p.count == 0 || 16 < p.count {
        return false;
    }
    same_place(p, kept_as(&p.first, m, &p.order, usize::from(p.count) - 1))
}
