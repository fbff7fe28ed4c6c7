// A vertex that is met on a pass: noted where it comes in for the first time. One byte for each point tells whether it
// was met, so that no pass over the list is made for a vertex. What is public here is for the pass, which shows what it
// asks.
#![tactic(auto)]

ghost use Rattle.std.specs.Prelude.{◌≡◌, suc, ◌≤◌, ◌<◌, length, set, take};
ghost use Rattle.grid_points.specs.Grid.{Grid as Shape, at};
ghost use Rattle.moves.specs.Held.{state_of};
ghost use Rattle.rules.specs.Read.{CanCompute};
ghost use Rattle.rules.specs.Ready.{IndicesBelow};
ghost use Rattle.rules.specs.Moves.{mark_position};
ghost use Rattle.nearest_visited.specs.Distance.{distance};
ghost use Rattle.nearest_met.specs.Measure.{CanMeasure};
ghost use Rattle.nearest_met.specs.Meeting.{HasMet, HasRoomToNote, come_by, listed_after, listed_in, noted};
ghost use Rattle.nearest_met.specs.Meeting.{point_come};

mod distances;

use arrays::{Held, position_at};
use distances::distance_of;
pub use distances::weights;
use moves::{Status, advance};
use rules::Round;

// What is kept of the vertices met so far: the position of the nearest and its distance, before the first one a
// distance that no vertex has; and how many positions the list has.
#[derive(Clone, Copy)]
pub struct Tally {
    pub nearest: usize,
    pub least: u64,
    pub listed: usize,
}

// The position of the point that has come in, whose mark is stored, if one has.
pub fn came_in(held: &Held, s: Status) -> Option<usize>
    requires { (s.active ≤ s.count) × (s.count ≤ 15) }
    ensures { result ≡ come_by s.rule (mark_position (at (take (suc s.count) held.now.marks) s.active)) }
{
    if s.rule < 6 {
        return Some(position_at(&held.marks, s.count, s.active));
    }
    None
}

// The distance from w of the point that has come in.
fn away(round: &Round, held: &Held, s: Status, weights: &[usize; 16], w: &[u16], m: usize) -> usize
    requires indices_below { let a = state_of round.now held.now s in
        IndicesBelow round.now.previous × CanCompute a a.active }
    requires can_measure { (g : Shape) × CanMeasure g weights.now w.now m }
    ensures { let a = state_of round.now held.now s in (g : Shape) → CanMeasure g weights.now w.now m
        → result ≡ distance g w.now (point_come g a) }
{
    let mut y = held.first;
    advance(&mut y, round, s.u, &held.order, s.active);
    distance_of(weights, w, &y, m)
}

// A position is put into the list, where it is within the given distance. The result is how many are there then.
fn enlist(list: &mut [u16], given: u64, listed: usize, position: usize, away: u64) -> usize
    requires { (position < 60000) × (away ≤ given → listed < length list.old) }
    ensures value { result ≡ listed_after given listed away }
    ensures list_after { list.new ≡ listed_in given listed position away list.old }
{
    if given < away {
        return listed;
    }
    list[listed] = position as u16;
    listed + 1
}

// A vertex is met for the first time. Of equally near ones the earlier stays.
fn note(
    seen: &mut [u8; 60000],
    list: &mut [u16],
    given: u64,
    t: Tally,
    position: usize,
    away: u64,
) -> Tally
    requires { (position < 60000) × (away ≤ given → t.listed < length list.old) }
    ensures value { result ≡ noted given t position away }
    ensures seen_after { seen.new ≡ set seen.old position 1 }
    ensures list_after { list.new ≡ listed_in given t.listed position away list.old }
{
    seen[position] = 1;
    let listed = enlist(list, given, t.listed, position, away);
    if away < t.least {
        return Tally {
            nearest: position,
            least: away,
            listed,
        };
    }
    Tally { listed, ..t }
}

// The vertex that has come in, if one has, is noted unless it was met before.
pub fn meet(
    round: &Round,
    held: &Held,
    s: Status,
    weights: &[usize; 16],
    w: &[u16],
    m: usize,
    came: Option<usize>,
    given: u64,
    seen: &mut [u8; 60000],
    list: &mut [u16],
    t: Tally,
) -> Tally
    requires indices_below { let a = state_of round.now held.now s in
        IndicesBelow round.now.previous × CanCompute a a.active }
    requires can_measure { let a = state_of round.now held.now s in
        (g : Shape) × CanMeasure g weights.now w.now m
        × HasRoomToNote given t (distance g w.now (point_come g a)) seen.old list.old came }
    ensures { let a = state_of round.now held.now s in
        (g : Shape) → CanMeasure g weights.now w.now m
        → HasMet given t (distance g w.now (point_come g a)) came seen list result }
{
    let Some(position) = came else {
        return t;
    };
    if seen[position] != 0 {
        return t;
    }
    let far = away(round, held, s, weights, w, m);
    note(seen, list, given, t, position, far as u64)
}
