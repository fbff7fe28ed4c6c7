// The losses of the strategies at a corner, out of the tables of the last level.
ghost use Rattle.std.specs.Prelude.{cond, ◌≡◌, ℕ, ◌≤◌, ◌<◌, eqb, length};
ghost use Rattle.game_corners.specs.Corners.{picked_at};
ghost use Rattle.grid_points.specs.Grid.{at};

// The strategy of the last block that counts in a table: there is one alone in the tables of the last player.
fn strategy(owner: usize, last: usize, k: usize) -> usize
    ensures { result ≡ cond (eqb owner last) 0 k }
{
    if owner == last { 0 } else { k }
}

// At each index the loss of its strategy where the last player takes strategy k.
pub fn pick(
    owners: &[u8; 16],
    levels: &[u32],
    last: usize,
    k: usize,
    indices: usize,
    values: &mut [u32; 16],
)
    requires last_bound { (last < 6) × (k < 162) × (indices ≤ 16) }
    requires levels_len { (length levels.now ≡ 15552) × (length values.old ≡ 16) }
    ensures { (length values.new ≡ 16) × ((h : ℕ) → h < indices
        → at values.new h ≡ picked_at owners.now levels.now last k h) }
{
    for h in 0..indices {
        let at = (last * 16 + h) * 162 + strategy(usize::from(owners[h]), last, k);
        values[h] = levels[at];
    }
}
