// The moving call on a walk that is lent: one thin function, which calls the by-value step.
ghost use Rattle.std.specs.Prelude.{◌≡◌};
ghost use Rattle.walk_calls.specs.Calls.{call_of, told_in};

use crate::moving::moved;
use crate::{Call, Told};
use walk_places::Walk;

// What a call tells besides.
pub fn told_in(c: Call) -> Told
    ensures { result ≡ told_in c }
{
    let Call {
        answer,
        simplex,
        ..
    } = c;
    Told { answer, simplex }
}

// Moves a lent walk on by one place, and tells the answer. At an end, and where it is refused, the walk is as it was.
pub fn move_on(w: &mut Walk, labels: &[u8]) -> Told
    ensures { (result ≡ told_in (call_of w.old labels.now))
        × (w.new ≡ (call_of w.old labels.now).walk) }
{
    let c = moved(*w, labels);
    *w = c.walk;
    told_in(c)
}
