// The expected and the replaced losses of a player, multiplied by the product of all divisions.
ghost use Rattle.std.specs.Prelude.{◌≡◌, map, ◌+◌, ◌*◌, ◌≤◌, ◌<◌, length, take, replicate};
ghost use Rattle.std.proofs.Math.Seq.{paste};
ghost use Rattle.game_losses.specs.Game.{dot as dot_of};
ghost use Rattle.game_losses.specs.AtPoint.{LossesFit};

// The sum of the mix's numbers times the values, entry by entry.
fn dot(mix: &[u16], values: &[u32]) -> u32
    requires { (length mix.now ≤ length values.now) × (dot_of mix.now values.now < 4294967296) }
    ensures { result ≡ dot_of mix.now values.now }
{
    let mut total: u32 = 0;
    for (i, number) in mix.iter().enumerate() {
        total += u32::from(*number) * values[i];
    }
    total
}

// At the player's indices stand the expected loss, and the loss if each strategy replaces the mix.
pub fn put_losses(
    mix: &[u16],
    values: &[u32],
    division: u16,
    first: usize,
    expected: &mut [u32],
    replaced: &mut [u32],
)
    requires { LossesFit division mix.now values.now
        × (first + length mix.now ≤ length expected.old)
        × (first + length mix.now ≤ length replaced.old) }
    ensures expected_after { let n = length mix.now in
        let loss = dot_of mix.now values.now in
        expected.new ≡ paste expected.old first (replicate n loss) n }
    ensures replaced_after { let n = length mix.now in
        let instead = map (λ v. division * v) (take n values.now) in
        replaced.new ≡ paste replaced.old first instead n }
{
    let loss = dot(mix, values);
    for k in 0..mix.len() {
        expected[first + k] = loss;
        replaced[first + k] = u32::from(division) * values[k];
    }
}
