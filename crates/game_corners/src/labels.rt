// The label of a point out of the differences at its corners. The differences at corner k stand from position 16 k on.
ghost use Rattle.std.specs.Prelude.{◌≡◌, ℕ, suc, ◌<◌, pos, ◌+ℤ◌, ◌*ℤ◌, length, replicate};
ghost use Rattle.combinatorics.specs.Lists.{up_from};
ghost use Rattle.game_corners.specs.Corners.{signed_at, column, RowToAdd, RowsToAdd};
ghost use Rattle.game_losses.specs.Game.{first_largest};

use crate::largest;

// The first numbers of the row, each x times, added to the totals.
fn add_times(totals: &mut [i64; 16], x: i64, row: &[i64], count: usize)
    requires { RowToAdd totals.old x row.now count }
    ensures { (length totals.new ≡ 16) × ((h : ℕ) → h < count
        → signed_at totals.new h ≡ signed_at totals.old h +ℤ x *ℤ signed_at row.now h) }
{
    for h in 0..count {
        totals[h] += x * row[h];
    }
}

// The rows weighed by the mix, added to totals that are 0. The totals are lent: handed over by value they would be
// copied.
fn add_rows(totals: &mut [i64; 16], mix: &[u16], rows: &[i64], count: usize)
    requires { (totals.old ≡ replicate 16 (pos 0)) × RowsToAdd mix.now rows.now count }
    ensures { (h : ℕ) → h < count
        → signed_at totals.new h ≡ column mix.now rows.now h }
{
    for (k, number) in mix.iter().enumerate() {
        add_times(totals, i64::from(*number), &rows[k * 16..], count);
    }
}

// The label of the point with this mix of the last player.
pub fn label_point(mix: &[u16], count: usize, differences: &[i64]) -> u8
    requires { (0 < count) × RowsToAdd mix.now differences.now count }
    ensures { let values = column mix.now differences.now in
        result ≡ suc (first_largest values (up_from 0 count)) }
{
    let mut totals = [0i64; 16];
    add_rows(&mut totals, mix, differences, count);
    (largest::first_largest(&totals, count) + 1) as u8
}
