// One table out of another, in one array.
ghost use Rattle.std.specs.Prelude.{◌≡◌, ◌+◌, ◌*◌, ◌≤◌, length};
ghost use Rattle.grid_points.specs.Grid.{at};
ghost use Rattle.game_weighed.specs.Levels.{blend, weighed_at, Spaced, TableToWeigh, Written};

// The sum of the mix's numbers times the values that stand step apart. There are at least two, and mostly no more:
// those are added without a loop.
fn dot_apart(mix: &[u16], values: &[u32], step: usize) -> u32
    requires { Spaced mix.now values.now step }
    ensures { result ≡ blend mix.now (λ k. at values.now (k * step)) }
{
    let mut total = u32::from(mix[0]) * values[0] + u32::from(mix[1]) * values[step];
    for k in 2..mix.len() {
        total += u32::from(mix[k]) * values[k * step];
    }
    total
}

// The table from place from on, weighed by the mix, stands from place to on.
pub fn weigh_table(levels: &mut [u32], from: usize, to: usize, rest: usize, mix: &[u16])
    requires { TableToWeigh mix.now levels.old from to rest }
    ensures { let old = levels.old in
        Written old to rest (weighed_at mix.now old from rest) levels.new }
{
    for e in 0..rest {
        levels[to + e] = dot_apart(mix, &levels[from + e..], rest);
    }
}

// The table from place from on stands from place to on too.
pub fn copy_table(levels: &mut [u32], from: usize, to: usize, rest: usize)
    requires { (from + rest ≤ to) × (to + rest ≤ length levels.old) }
    ensures { let old = levels.old in
        Written old to rest (λ e. at old (from + e)) levels.new }
{
    levels.copy_within(from..from + rest, to);
}
