// The losses of a game at a point, and what is asked of a loss table. Players and strategies are the grid's blocks and
// indices, which count from 0. What is public here is for the games and the slip, which show what it asks.
#![tactic(auto)]

ghost use Rattle.std.specs.Prelude.{◌≡◌, ◌≤◌};
ghost use Rattle.combinatorics.specs.Lists.{all, sum};
ghost use Rattle.game_losses.specs.Game.{product};
ghost use Rattle.game_losses.specs.Table.{in_range};

mod expected;
mod point;

pub use point::weigh_point;

// How many profiles of strategies there are: the product of sizes that add up to at most 16.
pub fn num_profiles(sizes: &[u8]) -> usize
    requires { sum sizes.now ≤ 16 }
    ensures { result ≡ product sizes.now }
{
    let mut count: usize = 1;
    for size in sizes {
        count *= usize::from(*size);
    }
    count
}

// Question 11: whether each loss is from 1 to 1,000.
pub fn in_range(losses: &[u16]) -> bool
    ensures { result ≡ all in_range losses.now }
{
    losses.iter().all(|loss| 1 <= *loss && *loss <= 1000)
}
