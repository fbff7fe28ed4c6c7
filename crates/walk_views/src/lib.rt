// What a viewer asks besides: the walk at {v}, a walk that faces the other way, and the points of a place.
#![tactic(auto)]

ghost use Rattle.std.specs.Prelude.{◌≡◌};
ghost use Rattle.walk_views.specs.Turned.{turned_as};

mod beginning;
mod pointing;

pub use beginning::at_start;
pub use pointing::points;
use walk_places::{Place, Walk};

// The number of the first of questions 1 to 7 that is answered no, or 0 and the walk at {v}.
#[derive(Clone, Copy)]
pub struct Begun {
    pub code: u8,
    pub walk: Walk,
}

// The number of the first of questions 1 to 7 and 20 that is answered no, or 0, how many points the place has, and
// their numbers, m for each point in rising order of coefficient sum, with 0 behind.
#[derive(Clone, Copy)]
pub struct PlacePoints {
    pub code: u8,
    pub count: usize,
    pub numbers: [u16; 256],
}

// The walk with another place before it: it faces the other way where that is the one it would be moved on to.
pub fn turned(w: Walk, before: Place) -> Walk
    ensures { result ≡ turned_as w before }
{
    Walk { before, ..w }
}
