// The indices before and after an index, round its block.
ghost use Rattle.std.specs.Prelude.{cond, ◌≡◌, suc, ◌+◌, ◌≤◌, ◌<◌, pred, eqb};

// The index after h in a block with size indices from first on.
pub fn index_after(h: usize, first: usize, size: usize) -> u8
    requires { (h < 16) × (first + size ≤ 16) }
    ensures { result ≡ cond (eqb (suc h) (first + size)) first (suc h) }
{
    if h + 1 == first + size {
        first as u8
    } else {
        (h + 1) as u8
    }
}

pub fn index_before(h: usize, first: usize, size: usize) -> u8
    requires { (first ≤ h) × (h < first + size) × (first + size ≤ 16) }
    ensures { result ≡ cond (eqb h first) (pred (first + size)) (pred h) }
{
    if h == first {
        (first + size - 1) as u8
    } else {
        (h - 1) as u8
    }
}
