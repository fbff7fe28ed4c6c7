// The table of binomials, by additions: row k, from 15 down to 2, has r + k choose k.
ghost use Rattle.std.specs.Prelude.{◌≡◌, ℕ, ◌+◌, ◌-◌, ◌≤◌, ◌<◌, pred, length};
ghost use Rattle.combinatorics.specs.Counting.{choose};
ghost use Rattle.positions.specs.Binomials.{InTable, IsBinomial, HasRows, Keeps};

use crate::{ENTRIES, ROW};

// The entry of the row before: r + 1 where that would be row 1.
fn entry_before(t: &[u16; ENTRIES], k: usize, r: usize) -> u16
    requires { InTable k r × (3 ≤ k → IsBinomial t.now (k - 1) r) }
    ensures { result ≡ choose (r + (k - 1)) (k - 1) }
{
    if k == 2 {
        return (r + 1) as u16;
    }
    t[(16 - k) * ROW + r]
}

// Row k as far as r = most.
fn fill_row(t: &mut [u16; ENTRIES], k: usize, most: usize)
    requires in_table { InTable k most × (choose (most + k) k ≤ 60000) }
    requires t_len { (length t.old ≡ 1255) × ((r : ℕ) → 3 ≤ k → r ≤ most → IsBinomial t.old (k - 1) r) }
    ensures { (length t.new ≡ 1255) × Keeps t.old t.new
        × ((r : ℕ) → r ≤ most → IsBinomial t.new k r) }
{
    let at = (15 - k) * ROW;
    t[at] = 1;
    let mut last: u16 = 1;
    for r in 1..=most {
        last += entry_before(t, k, r);
        t[at + r] = last;
    }
}

// The rows that a block needs.
pub fn fill_block(t: &mut [u16; ENTRIES], size: usize, division: usize)
    requires le_size { (2 ≤ size) × (size ≤ 16) × (choose (division + pred size) (pred size) ≤ 60000) }
    requires t_len { length t.old ≡ 1255 }
    ensures { (length t.new ≡ 1255) × Keeps t.old t.new
        × HasRows size division t.new }
{
    for k in 2..size {
        fill_row(t, k, division);
    }
}
