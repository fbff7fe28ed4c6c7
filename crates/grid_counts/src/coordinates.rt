// The coordinates of a block.
ghost use Rattle.std.specs.Prelude.{map, ◌≡◌, ◌+◌, ◌≤◌, length, get_or};
ghost use Rattle.combinatorics.specs.Lists.{sum, up_from};

// What they add up to: size of them from first on. The sum is wider than 16 bits.
pub fn total(y: &[u16], first: usize, size: usize) -> usize
    requires { (first + size ≤ length y.now) × (size ≤ 16) }
    ensures { result ≡ sum (map (λ h. get_or y.now h 0) (up_from first size)) }
{
    y[first..first + size].iter().map(|x| usize::from(*x)).sum()
}
