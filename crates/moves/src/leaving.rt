// A point leaves the place, and the place on the other side of the facet opposite to it comes, by rules 1, 2, 3, 6 and
// 7.
ghost use Rattle.std.specs.Prelude.{not, ◌&&◌, ◌≡◌, ◌-◌, ◌<◌, eqb, length};
ghost use Rattle.grid_points.specs.Grid.{at};
ghost use Rattle.moves.specs.Held.{CanShrink, IsFirstStep, IsLastStep, IsMiddle, Sound, answered, state_of};
ghost use Rattle.rules.specs.Mask.{bit};
ghost use Rattle.rules.specs.Ready.{RoundBelow, ReadyFirst, ReadyLast, ReadyLeave};
ghost use Rattle.rules.specs.Moves.{leave_first, leave_middle, leave_last, shrink as shrunk, leave as left};

use crate::{Outcome, Status};
use arrays::{
    Held, add, exchange, find, first_outside, first_outside_or_zero, has, index_at, is_filled,
    remove, without,
};
use rules::Round;

// Point i and entry e of the order go. The index of that entry leaves T, and joins U where `joins`; the point
// labelled by it leaves next.
fn shrink(held: &mut Held, s: Status, i: usize, e: usize, joins: bool) -> Status
    requires { Sound held.old s × CanShrink s i e }
    ensures { (round : Round) → state_of round held.new result ≡ shrunk (state_of round held.old s) i e joins }
{
    let n = s.count;
    let h = index_at(&held.order, n, e);
    remove(&mut held.order, n, e);
    remove(&mut held.marks, n + 1, i);
    let active = find(&held.marks, n, h as u32 + 1, 16);
    let t = without(s.t, h);
    let rule = if joins { 6 } else { 7 };
    let u = if joins { add(s.u, h) } else { s.u };
    Status {
        rule,
        count: n - 1,
        t,
        u,
        active,
    }
}

// Without the first point every point is 0 at b: the first has 1 there, which its step takes, and no step adds to
// it.
fn vanishes(held: &Held, t: u16, b: usize) -> bool
    requires { b < 16 }
    ensures { result ≡ (eqb (at held.now.first b) 1 && not (bit t b)) }
{
    held.first[b] == 1 && !has(t, b)
}

// The first point leaves by its step at h, which takes from b: the second is the new first, or the facet is an end.
fn leave_first_at(held: &mut Held, round: &Round, s: Status, h: usize, b: usize) -> Outcome
    requires sound { RoundBelow round.now × Sound held.old s }
    requires ready { let a = state_of round.now held.old s in IsFirstStep a h b × ReadyFirst a }
    ensures { answered round.now held.new s result ≡ leave_first (state_of round.now held.old s) }
{
    let n = s.count;
    if vanishes(held, s.t, b) {
        if is_filled(round, s.t, s.u, b) {
            return Outcome::FacetEnd(b);
        }
        held.go_forward(round, n, h, b);
        return Outcome::Moved(Status {
            rule: 2,
            count: n,
            t: s.t,
            u: add(s.u, b),
            active: n,
        });
    }
    held.go_forward(round, n, h, b);
    Outcome::Moved(Status {
        rule: 1,
        count: n,
        t: s.t,
        u: s.u,
        active: n,
    })
}

// The first point leaves.
fn leave_first(held: &mut Held, round: &Round, s: Status) -> Outcome
    requires sound { RoundBelow round.now × Sound held.old s }
    requires ready { ReadyFirst (state_of round.now held.old s) }
    ensures { answered round.now held.new s result ≡ leave_first (state_of round.now held.old s) }
{
    let h = index_at(&held.order, s.count, 0);
    let b = first_outside(&round.previous, &round.sizes, s.u, h);
    leave_first_at(held, round, s, h, b)
}

// Point i, neither the first nor the last, leaves: the steps to it and from it change places, or the index of the
// step to it moves to U.
fn leave_middle(held: &mut Held, round: &Round, s: Status, i: usize) -> Status
    requires sound { RoundBelow round.now × Sound held.old s }
    requires middle { IsMiddle s i }
    ensures { state_of round.now held.new result ≡ leave_middle (state_of round.now held.old s) i }
{
    let from = index_at(&held.order, s.count, i);
    let to = index_at(&held.order, s.count, i - 1);
    let b = first_outside(&round.previous, &round.sizes, s.u, from);
    if to == b && held.first[b] == 0 {
        return shrink(held, s, i, i - 1, true);
    }
    exchange(&mut held.order, i - 1);
    Status {
        rule: 1,
        count: s.count,
        t: s.t,
        u: s.u,
        active: i,
    }
}

// The last point leaves by its step at h: a new first point comes in, or the index h leaves T.
fn leave_last_at(held: &mut Held, round: &Round, s: Status, h: usize) -> Status
    requires sound { RoundBelow round.now × Sound held.old s }
    requires ready { let a = state_of round.now held.old s in IsLastStep s a h × ReadyLast a h }
    ensures { state_of round.now held.new result ≡ leave_last (state_of round.now held.old s) }
{
    let n = s.count;
    if held.first[h] == 0 {
        return shrink(held, s, n, n - 1, true);
    }
    if held.coefficients[h] == 0 {
        return shrink(held, s, n, n - 1, false);
    }
    let b = first_outside_or_zero(round, s.u, &held.coefficients, h);
    held.go_back(round, n, h, b);
    let rule = if has(s.u, b) { 3 } else { 1 };
    Status {
        rule,
        count: n,
        t: s.t,
        u: without(s.u, b),
        active: 0,
    }
}

// The last point leaves.
fn leave_last(held: &mut Held, round: &Round, s: Status) -> Status
    requires sound { RoundBelow round.now × Sound held.old s }
    requires ready { let a = state_of round.now held.old s in ReadyLast a (at a.order (length a.order - 1)) }
    ensures { state_of round.now held.new result ≡ leave_last (state_of round.now held.old s) }
{
    let h = index_at(&held.order, s.count, s.count - 1);
    leave_last_at(held, round, s, h)
}

// Point i leaves.
pub fn leave(held: &mut Held, round: &Round, s: Status, i: usize) -> Outcome
    requires sound { RoundBelow round.now × Sound held.old s }
    requires ready { ReadyLeave (state_of round.now held.old s) i }
    ensures { answered round.now held.new s result ≡ left (state_of round.now held.old s) i }
{
    if i == 0 {
        return leave_first(held, round, s);
    }
    if i < s.count {
        return Outcome::Moved(leave_middle(held, round, s, i));
    }
    Outcome::Moved(leave_last(held, round, s))
}
