// The differences of a point, and the first largest of them.
ghost use Rattle.std.specs.Prelude.{◌≡◌, ℕ, ◌≤◌, ◌<◌, pos, nat_abs, ◌-ℤ◌, length};
ghost use Rattle.combinatorics.specs.Lists.{up_from};
ghost use Rattle.grid_points.specs.Grid.{at};
ghost use Rattle.game_corners.specs.Corners.{signed_at};
ghost use Rattle.game_losses.specs.Game.{first_largest};

fn signed_difference(expected: u32, replaced: u32) -> i64
    ensures { (result ≡ pos expected -ℤ pos replaced) × (nat_abs result < 4294967296) }
{
    i64::from(expected) - i64::from(replaced)
}

// The expected losses less the replaced ones, entry by entry.
pub fn put_differences(differences: &mut [i64], expected: &[u32; 16], replaced: &[u32; 16])
    requires { length differences.old ≡ 16 }
    ensures { (h : ℕ) → h < 16 → (let d = signed_at differences.new h in
        ((d ≡ pos (at expected.now h) -ℤ pos (at replaced.now h)) × (nat_abs d < 4294967296))) }
{
    for (h, difference) in differences.iter_mut().enumerate() {
        *difference = signed_difference(expected[h], replaced[h]);
    }
}

// The first index below count at which the difference is largest.
pub fn first_largest(differences: &[i64; 16], count: usize) -> usize
    requires { (0 < count) × (count ≤ 16) }
    ensures { (result ≡ first_largest (signed_at differences.now) (up_from 0 count)) × (result < count) }
{
    let mut best: usize = 0;
    for h in 1..count {
        if differences[best] < differences[h] {
            best = h;
        }
    }
    best
}
