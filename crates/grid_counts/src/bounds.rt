// The sum of the bound.
ghost use Rattle.std.specs.Prelude.{map, ◌≡◌, suc, ◌≤◌};
ghost use Rattle.combinatorics.specs.Counting.{falling};
ghost use Rattle.combinatorics.specs.Lists.{sum as total, up_from};

// 1 + m + m (m - 1) + .., whose last term has n factors.
pub fn terms(m: u64, n: u64) -> u64
    requires { (m ≤ 16) × (n ≤ m) × (n ≤ 15) }
    ensures { result ≡ total (map (falling m) (up_from 0 (suc n))) }
{
    let mut product: u64 = 1;
    let mut sum: u64 = 1;
    for k in 0..n {
        product *= m - k;
        sum += product;
    }
    sum
}
