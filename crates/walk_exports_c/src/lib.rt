// The calls of walks, exported to C under their names, each with the promises of the library's own.
#![tactic(auto)]

ghost use Rattle.std.specs.Prelude.{◌≡◌};
ghost use Rattle.walk_numbers.specs.Answered.{after_beginning, after_moving, after_pointing, after_showing};

use walk_numbers::Answered;

// Makes the walk at {v}, with 1 as its places so far and its labels read.
#[unsafe(no_mangle)]
pub extern "C" fn leveretplate_walk_at_start(
    s: &mut Answered,
    sizes: &[u8],
    divisions: &[u16],
    start: &[u16],
    labels: &[u8],
)
    ensures { s.new ≡ after_beginning s.old
        sizes.now divisions.now start.now labels.now }
{
    walk_exports::leveretplate_walk_at_start(s, sizes, divisions, start, labels)
}

// Moves the walk on by one place.
#[unsafe(no_mangle)]
pub extern "C" fn leveretplate_move_on(s: &mut Answered, labels: &[u8])
    ensures { s.new ≡ after_moving s.old labels.now }
{
    walk_exports::leveretplate_move_on(s, labels)
}

// Shows the move before it is made: the walk is as it was.
#[unsafe(no_mangle)]
pub extern "C" fn leveretplate_preview(s: &mut Answered, labels: &[u8])
    ensures { s.new ≡ after_showing s.old labels.now }
{
    walk_exports::leveretplate_preview(s, labels)
}

// Gives the points of the present place: the walk is as it was.
#[unsafe(no_mangle)]
pub extern "C" fn leveretplate_walk_points(s: &mut Answered, labels: &[u8])
    ensures { s.new ≡ after_pointing s.old labels.now }
{
    walk_exports::leveretplate_walk_points(s, labels)
}
