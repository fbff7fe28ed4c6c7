// What is held of a place.
ghost use Rattle.std.specs.Prelude.{◌≡◌, ◌≤◌, length, replicate, take};
ghost use Rattle.combinatorics.specs.Front.{front};

use crate::points::padded;

// The first point of a place, that point's coefficient list, the indices of T in the order in which each point goes to
// the next, and a mark for each point.
#[derive(Clone, Copy)]
pub struct Held {
    pub first: [u16; 16],
    pub coefficients: [u16; 16],
    pub order: [u32; 16],
    pub marks: [u32; 16],
    ghost first_long: { length first ≡ 16 },
    ghost order_long: { length order ≡ 16 },
}

impl Held {
    // A place whose first point has the first m numbers given, with no coefficient, index or mark.
    pub fn at(start: &[u16], m: usize) -> Held
        requires { (m ≤ length start.now) × (m ≤ 16) }
        ensures { (result.first ≡ front (take m start.now) (replicate 16 0))
            × (result.coefficients ≡ replicate 16 0)
            × (result.order ≡ replicate 16 0)
            × (result.marks ≡ replicate 16 0) }
    {
        Held {
            first: padded(start, m),
            coefficients: [0; 16],
            order: [0; 16],
            marks: [0; 16],
        }
    }
}
