// Grid points as arrays of 16 numbers, 0 behind the last index.
ghost use Rattle.std.specs.Prelude.{◌&&◌, ◌≡◌, ℕ, ◌≤◌, ◌<◌, eqb, ltb, length, take, replicate};
ghost use Rattle.combinatorics.specs.Front.{front};
ghost use Rattle.grid_points.specs.Grid.{at};
ghost use Rattle.rules.specs.Mask.{bit};

use crate::mask::add;

// The first m numbers of the slice, 0 behind them.
pub fn padded(y: &[u16], m: usize) -> [u16; 16]
    requires { (m ≤ length y.now) × (m ≤ 16) }
    ensures { result ≡ front (take m y.now) (replicate 16 0) }
{
    let mut a = [0u16; 16];
    a[..m].copy_from_slice(&y[..m]);
    a
}

// The indices below m at which the point is 0.
pub fn zeros(y: &[u16; 16], m: usize) -> u16
    requires { m ≤ 16 }
    ensures { (k : ℕ) → k < 16 → bit result k ≡ (ltb k m && eqb (at y.now k) 0) }
{
    let mut u: u16 = 0;
    for h in 0..m {
        if y[h] == 0 {
            u = add(u, h);
        }
    }
    u
}
