// How many numbers the tables of each level have.
ghost use Rattle.std.specs.Prelude.{true, [], ◌≡◌, ◌≤◌, leb};
ghost use Rattle.combinatorics.specs.Lists.{all, sum};
ghost use Rattle.grid_points.specs.Grid.{lent};
ghost use Rattle.game_weighed.specs.Levels.{behind, Rests};

use std::array;

// How many profiles the player's opponents have from the block first on.
fn profiles_behind(sizes: &[u8], player: usize, first: usize) -> usize
    requires { (all (λ s. leb 2 s) sizes.now ≡ true) × (sum sizes.now ≤ 16) }
    ensures { result ≡ behind (lent sizes.now []) player first }
{
    let mut count: usize = 1;
    for j in first..sizes.len() {
        if j != player {
            count *= usize::from(sizes[j]);
        }
    }
    count
}

// The same for each of six players, behind each other, at each of six blocks.
pub fn rests(sizes: &[u8]) -> [usize; 36]
    requires { (all (λ s. leb 2 s) sizes.now ≡ true) × (sum sizes.now ≤ 16) }
    ensures { Rests (lent sizes.now []) result }
{
    array::from_fn(|i| profiles_behind(sizes, i % 6, i / 6))
}
