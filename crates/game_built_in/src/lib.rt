// The games that are built in: question 15, and their losses. What is public here is for the slip.
#![tactic(auto)]

ghost use Rattle.std.specs.Prelude.{◌≡◌, ◌≤◌, length};
ghost use Rattle.combinatorics.specs.Front.{front};
ghost use Rattle.game_built_in.specs.Tables.{game_losses, question15};

mod tables;

// Question 15: whether the game is 1, 2 or 3, with these sizes.
pub fn is_game(game: u8, sizes: &[u8]) -> bool
    ensures { result ≡ (question15 game sizes.now).answered_yes }
{
    match game {
        1 => tables::same_sizes(sizes, &tables::SIZES1),
        2 => tables::same_sizes(sizes, &tables::SIZES2),
        3 => tables::same_sizes(sizes, &tables::SIZES3),
        _ => false,
    }
}

// The losses to the front of the room, and how many there are.
#[tactic(auto, unfolding(combinatorics::specs::Front::front))]
fn put(losses: &[u16], room: &mut [u16]) -> usize
    requires { length losses.now ≤ length room.old }
    ensures { (result ≡ length losses.now)
        × (room.new ≡ front losses.now room.old) }
{
    room[..losses.len()].copy_from_slice(losses);
    losses.len()
}

// The losses of the game to the front of the room, and how many there are: 24, 81 or 64.
#[tactic(auto, unfolding(crate::specs::Tables::losses1, crate::specs::Tables::losses2, crate::specs::Tables::losses3))]
pub fn put_losses(game: u8, room: &mut [u16]) -> usize
    requires { 81 ≤ length room.old }
    ensures { (result ≡ length (game_losses game))
        × (room.new ≡ front (game_losses game) room.old) }
{
    match game {
        1 => put(&tables::LOSSES1, room),
        2 => put(&tables::LOSSES2, room),
        _ => put(&tables::LOSSES3, room),
    }
}
