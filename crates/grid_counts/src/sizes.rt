// The sizes and divisions of blocks.
ghost use Rattle.std.specs.Prelude.{◌≡◌, ◌≤◌, leb, length, take};
ghost use Rattle.combinatorics.specs.Lists.{all, sum};

// Is each size at least the least that is allowed?
pub fn each_at_least(sizes: &[u8], least: u8) -> bool
    ensures { result ≡ all (λ s. leb least s) sizes.now }
{
    sizes.iter().all(|size| *size >= least)
}

// Is each division at least 1?
pub fn each_one(divisions: &[u16]) -> bool
    ensures { result ≡ all (λ d. leb 1 d) divisions.now }
{
    divisions.iter().all(|division| *division >= 1)
}

// The first index of block j, and m for j = N.
pub fn first_index(sizes: &[u8], j: usize) -> usize
    requires { (j ≤ length sizes.now) × (j ≤ 6) }
    ensures { result ≡ sum (take j sizes.now) }
{
    sizes[..j].iter().map(|size| usize::from(*size)).sum()
}
