// What changes from a place to the next, by the marks of their points and the masks of T and U.
ghost use Rattle.std.specs.Prelude.{◌≡◌, suc, ◌≤◌, eqb, length, take};
ghost use Rattle.combinatorics.specs.Lists.{is_in};
ghost use Rattle.walk_preview.specs.Changes.{change_for, index_from, other_in};

use crate::Change;
use arrays::position_at;
use trail_records::difference;

// Whether a mark is among the first n + 1.
fn among(marks: &[u32; 16], n: usize, mark: u32) -> bool
    requires { (n ≤ 15) × (length marks.now ≡ 16) }
    ensures { result ≡ is_in eqb mark (take (suc n) marks.now) }
{
    marks[..=n].contains(&mark)
}

// The position in the first of n + 1 marks that is not among the k + 1 others; 0 where there is none.
pub fn other(marks: &[u32; 16], n: usize, others: &[u32; 16], k: usize) -> u32
    requires n_bound { (n ≤ 15) × (length marks.now ≡ 16) }
    requires k_bound { (k ≤ 15) × (length others.now ≡ 16) }
    ensures { result ≡ other_in (take (suc n) marks.now) (take (suc k) others.now) }
{
    for (j, &mark) in marks[..=n].iter().enumerate() {
        if !among(others, k, mark) {
            return position_at(marks, n, j) as u32;
        }
    }
    0
}

// The index, from 1, that comes into T or goes out of it, or else into U or out of it.
pub fn index_of(t: u16, u: u16, t2: u16, u2: u16) -> u32
    ensures { result ≡ suc (index_from t u t2 u2) }
{
    let h = difference(t, t2);
    let h = if h == 16 { difference(u, u2) } else { h };
    h as u32 + 1
}

// The fields of each rule.
pub fn change_for(rule: u8, come: u32, gone: u32, h: u32) -> Change
    ensures { result ≡ change_for rule come gone h }
{
    match rule {
        1 => Change {
            map: 3,
            fields: [come, gone, 0, 0, 0, 0],
        },
        2 => Change {
            map: 19,
            fields: [come, gone, 0, 0, h, 0],
        },
        3 => Change {
            map: 35,
            fields: [come, gone, 0, 0, 0, h],
        },
        4 => Change {
            map: 5,
            fields: [come, 0, h, 0, 0, 0],
        },
        5 => Change {
            map: 37,
            fields: [come, 0, h, 0, 0, h],
        },
        6 => Change {
            map: 26,
            fields: [0, gone, 0, h, h, 0],
        },
        7 => Change {
            map: 10,
            fields: [0, gone, 0, h, 0, 0],
        },
        _ => Change {
            map: 0,
            fields: [0u32; 6],
        },
    }
}
