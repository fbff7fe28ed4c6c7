// The calls on a walk, for programs in C and Rust: each takes the struct by reference, calls the by-value step and
// stores what it gives.
#![tactic(auto)]

ghost use Rattle.std.specs.Prelude.{◌≡◌};
ghost use Rattle.walk_numbers.specs.Answered.{after_beginning, after_moving, after_pointing, after_showing};

use walk_numbers::{Answered, after_beginning, after_moving, after_pointing, after_showing};

// The law of a call that is lent a struct: it passes what the struct holds to a step and stores what that gives, so it
// promises what the step does. It holds of every type that is copied and of every step, whatever is lent besides.
pub fn lends<T: Copy, F: FnOnce(T) -> T>(lent: &mut T, step: F)
    requires { F.pre step lent.old }
    ensures { F.post step lent.old lent.new }
{
    *lent = step(*lent);
}

// Makes the walk at {v}, with 1 as its places so far and its labels read.
pub fn leveretplate_walk_at_start(
    s: &mut Answered,
    sizes: &[u8],
    divisions: &[u16],
    start: &[u16],
    labels: &[u8],
)
    ensures { s.new ≡ after_beginning s.old
        sizes.now divisions.now start.now labels.now }
{
    lends(
        s,
        |walk| after_beginning(walk, sizes, divisions, start, labels),
    );
}

// Moves the walk on by one place.
pub fn leveretplate_move_on(s: &mut Answered, labels: &[u8])
    ensures { s.new ≡ after_moving s.old labels.now }
{
    lends(s, |walk| after_moving(walk, labels));
}

// Shows the move before it is made: the walk is as it was.
pub fn leveretplate_preview(s: &mut Answered, labels: &[u8])
    ensures { s.new ≡ after_showing s.old labels.now }
{
    lends(s, |walk| after_showing(walk, labels));
}

// Gives the points of the present place: the walk is as it was.
pub fn leveretplate_walk_points(s: &mut Answered, labels: &[u8])
    ensures { s.new ≡ after_pointing s.old labels.now }
{
    lends(s, |walk| after_pointing(walk, labels));
}
