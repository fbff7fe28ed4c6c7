// A centre's number, rounded as the journals round. Only the sheet calls it.
#![tactic(auto)]

ghost use Rattle.std.specs.Prelude.{◌≡◌, ◌≤◌};
ghost use Rattle.rounding.specs.Centre.{centre as centre_of};

// The centre's number for the sum of `count` coordinates: of the quotient and the next number the nearest, and the even
// one where both are equally near.
pub fn centre(total: u64, count: usize, division: u16) -> u64
    requires total_bound { total ≤ 1048560 }
    requires le_count { (1 ≤ count) × (count ≤ 16) × (1 ≤ division) }
    ensures { result ≡ centre_of total count division }
{
    let parts = 10000 * total;
    let divisor = count as u64 * u64::from(division);
    let number = parts / divisor;
    let rest = parts - number * divisor;
    if divisor < 2 * rest + number % 2 {
        number + 1
    } else {
        number
    }
}
