// A label joins T, or the place is an end. The first point and its coefficients have no part in this.
ghost use Rattle.std.specs.Prelude.{◌≡◌};
ghost use Rattle.moves.specs.Held.{CanGrow, CanJoin, answered, state_of};
ghost use Rattle.rules.specs.Moves.{grow as grown, joined};

use arrays::{Held, add, find, first_outside, has, insert, is_filled, without};
use moves::{Outcome, Status};
use rules::Round;

// Index h joins T before entry i of the order, and the point behind that entry comes in.
fn join(held: &mut Held, s: Status, i: usize, h: usize, rule: u8) -> Status
    requires { CanJoin s i h }
    ensures { (round : Round) → state_of round held.new result ≡ joined (state_of round held.old s) i h rule }
{
    let n = s.count;
    insert(&mut held.order, n, i, h as u32);
    insert(&mut held.marks, n + 1, i + 1, 0);
    Status {
        rule,
        count: n + 1,
        t: add(s.t, h),
        u: without(s.u, h),
        active: i + 1,
    }
}

// The label h, not in T, has come in: it joins T, or the place is an end.
pub fn grow(held: &mut Held, round: &Round, s: Status, h: usize) -> Outcome
    requires { CanGrow (state_of round.now held.old s) h }
    ensures { answered round.now held.new s result ≡ grown (state_of round.now held.old s) h }
{
    let n = s.count;
    if has(s.u, h) {
        let b = first_outside(&round.next, &round.sizes, s.u, h);
        let i = find(&held.order, n, b as u32, 16);
        return Outcome::Moved(join(held, s, i, h, 5));
    }
    if is_filled(round, s.t, s.u, h) {
        return Outcome::PlaceEnd(h);
    }
    Outcome::Moved(join(held, s, n, h, 4))
}
