// The move shown before it is made.
#![tactic(auto)]

ghost use Rattle.std.specs.Prelude.{◌≡◌};
ghost use Rattle.walk_preview.specs.Changes.{no_change};

mod changes;
mod showing;

pub use showing::preview;
use walk_ways::WalkAnswer;

// What changes by a move, as the trail's record of it says. Field 0 is the point that comes in and field 1 the point
// that goes out, by their positions in the label table; fields 2 to 5 are the indices into T, out of T, into U and out
// of U, from 1. Bit b of the map stands exactly if field b is there, and an absent field has the number 0.
#[derive(Clone, Copy)]
pub struct Change {
    pub map: u8,
    pub fields: [u32; 6],
}

impl Change {
    // No move: nothing changes.
    pub fn none() -> Change
        ensures { result ≡ no_change }
    {
        Change {
            map: 0,
            fields: [0u32; 6],
        }
    }
}

// The answer that the moving call would give, the simplex of an end, and what the move would change.
#[derive(Clone, Copy)]
pub struct Shown {
    pub answer: WalkAnswer,
    pub simplex: [u16; 256],
    pub change: Change,
}
