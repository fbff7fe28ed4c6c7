// How many points a block has, and a grid, counted no further than one past the most that is accepted.
ghost use Rattle.std.specs.Prelude.{true, ◌≡◌, ℕ, suc, ◌+◌, ◌≤◌, ◌<◌, pred, leb, length, get_or};
ghost use Rattle.combinatorics.specs.Counting.{binomial_product, choose};
ghost use Rattle.combinatorics.specs.Lists.{all, sum};
ghost use Rattle.grid_counts.specs.Capped.{capped, IsRow};

use crate::MAX_POINTS;

fn cap(n: usize) -> usize
    ensures { result ≡ capped n }
{
    if MAX_POINTS < n { MAX_POINTS + 1 } else { n }
}

// The binomials of r + 1 from those of r.
fn next_row(row: &mut [usize; 16], last: usize)
    requires { (last < 16) × (length row.old ≡ 16)
        × ((k : ℕ) → k ≤ last → get_or row.old k 0 ≤ 60001) }
    ensures { (length row.new ≡ 16)
        × ((r : ℕ) → IsRow r last row.old → IsRow (suc r) last row.new) }
{
    for k in 1..=last {
        row[k] = cap(row[k] + row[k - 1]);
    }
}

// A block's count, "d + n choose n" with n one less than the size.
pub fn block_count(size: usize, division: usize) -> usize
    requires { (2 ≤ size) × (size ≤ 16) × (division ≤ 65535) }
    ensures { result ≡ capped (choose (division + pred size) (pred size)) }
{
    if size == 2 {
        return cap(division + 1);
    }
    let last = size - 1;
    let mut row = [1usize; 16];
    for _ in 0..division {
        if MAX_POINTS < row[last] {
            return MAX_POINTS + 1;
        }
        next_row(&mut row, last);
    }
    row[last]
}

// P, the product of the blocks' counts.
pub fn points(sizes: &[u8], divisions: &[u16]) -> usize
    requires { (all (λ s. leb 2 s) sizes.now ≡ true) × (sum sizes.now ≤ 16)
        × (length divisions.now ≡ length sizes.now) }
    ensures { result ≡ capped (binomial_product sizes.now divisions.now) }
{
    let mut product: usize = 1;
    for (size, division) in sizes.iter().zip(divisions) {
        product = cap(product * block_count(usize::from(*size), usize::from(*division)));
    }
    product
}
