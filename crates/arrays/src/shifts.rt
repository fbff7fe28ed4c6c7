// The numbers of a point, and of its coefficient list, that change by 1.
ghost use Rattle.std.specs.Prelude.{true, ◌≡◌, suc, pred, ◌≤◌, ◌<◌, ltb};
ghost use Rattle.grid_points.specs.Grid.{at};
ghost use Rattle.rules.specs.Ready.{IndicesBelow, tested_before};
ghost use Rattle.rules.specs.Moves.{shifted, changed_before};

// 1 more at h, 1 less at b.
pub fn shift(y: &mut [u16; 16], h: usize, b: usize)
    requires h_bound { (h < 16) × (b < 16) }
    requires h_bound_2 { (at y.old h < 65535) × (1 ≤ at y.old b) }
    ensures { y.new ≡ shifted y.old h b }
{
    y[h] += 1;
    y[b] -= 1;
}

// The coefficients of h and of the indices going back from it before b, each raised by 1. Raising and lowering are two
// functions: a common one would take the change as a closure and its test as a ghost, which is no plainer.
pub fn raise(c: &mut [u16; 16], previous: &[u8; 16], h: usize, b: usize)
    requires h_bound { (h < 16) × IndicesBelow previous.now }
    requires c_value { tested_before (λ x. ltb x 65535) suc previous.now b 16 h c.old ≡ true }
    ensures { c.new ≡ changed_before suc previous.now b 16 h c.old }
{
    let mut at = h;
    for _ in 0..c.len() {
        if at == b {
            break;
        }
        c[at] += 1;
        at = usize::from(previous[at]);
    }
}

// The same, each lowered by 1.
pub fn lower(c: &mut [u16; 16], previous: &[u8; 16], h: usize, b: usize)
    requires h_bound { (h < 16) × IndicesBelow previous.now }
    requires c_value { tested_before (λ x. ltb 0 x) pred previous.now b 16 h c.old ≡ true }
    ensures { c.new ≡ changed_before pred previous.now b 16 h c.old }
{
    let mut at = h;
    for _ in 0..c.len() {
        if at == b {
            break;
        }
        c[at] -= 1;
        at = usize::from(previous[at]);
    }
}
