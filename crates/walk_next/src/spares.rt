// The point of a place whose label the others do not need.
ghost use Rattle.std.specs.Prelude.{◌≡◌, ◌≤◌, length};
ghost use Rattle.walk_next.specs.Spares.{is_new, LabelsLow, SparesOf};

use crate::Spared;
use arrays::{add, has, label_in};

// Whether a label is an index of T that is not yet among those seen.
fn is_new(t: u16, seen: u16, label: u32) -> bool
    requires { label ≤ 16 }
    ensures { result ≡ is_new t seen label }
{
    if label == 0 {
        return false;
    }
    let h = label as usize - 1;
    has(t, h) && !has(seen, h)
}

// The indices of T that are labels of the first n + 1 points, and the last point whose label is none of T or one seen
// before.
pub fn spare(marks: &[u32; 16], n: usize, t: u16) -> Spared
    requires { (n ≤ 15) × (length marks.now ≡ 16) × LabelsLow marks.now n }
    ensures { SparesOf marks.now n t result }
{
    let mut seen: u16 = 0;
    let mut point: usize = 0;
    for (k, &mark) in marks[..=n].iter().enumerate() {
        let label = label_in(mark);
        if is_new(t, seen, label) {
            seen = add(seen, label as usize - 1);
        } else {
            point = k;
        }
    }
    Spared { seen, point }
}
