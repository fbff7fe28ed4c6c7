// What a move does, told before it is made: a point leaves, or an index joins T. The writer of a trail takes it from
// the labels, the reader from a record, and both make the same move. What is public here is for the two, which show
// what it asks.
#![tactic(auto)]

ghost use Rattle.std.specs.Prelude.{◌≡◌, ℕ, ◌≤◌};
ghost use Rattle.moves.specs.Held.{CanStep, Sound, answered, state_of};
ghost use Rattle.rules.specs.Ready.{RoundBelow};
ghost use Rattle.rules.specs.Moves.{make_move};
ghost use Rattle.ways.specs.Ways.{CanMove, CanTell, gone_by, held_marks, way_after, way_here};

mod joining;

use arrays::{Held, find, has, label_in, position_at};
use joining::grow;
use moves::{Outcome, Status, leave};
use rules::Round;

// The point that leaves, by its number; or the index that joins T; or neither, which only a reader meets.
#[derive(Clone, Copy)]
pub enum Way {
    Leaves(usize),
    Joins(usize),
    Nothing,
}

// The way from a place whose points all have their marks. After rules 6 and 7 the point named leaves. Otherwise the
// label that came in joins T if it is not there, and if it is, the other point with that label leaves.
pub fn way_here(marks: &[u32; 16], s: Status) -> Way
    requires { CanTell (held_marks marks.now s) s }
    ensures { result ≡ way_here (held_marks marks.now s) }
{
    let i = s.active;
    if s.rule < 6 {
        let label = label_in(marks[i]);
        let h = label as usize - 1;
        if !has(s.t, h) {
            return Way::Joins(h);
        }
        return Way::Leaves(find(marks, s.count + 1, label, i));
    }
    Way::Leaves(i)
}

// The position of the point that a way takes out; 0 where it takes none.
pub fn gone_by(way: Way, marks: &[u32; 16], s: Status) -> usize
    requires { (s.count ≤ 15) × ((i : ℕ) → way ≡ Way.Leaves i → i ≤ s.count) }
    ensures { result ≡ gone_by (held_marks marks.now s) way }
{
    match way {
        Way::Leaves(i) => position_at(marks, s.count, i),
        Way::Joins(_) => 0,
        Way::Nothing => 0,
    }
}

// The move that a way names. Without one, nothing that is held changes.
pub fn moved_by(held: &mut Held, round: &Round, s: Status, way: Way) -> Outcome
    requires sound { RoundBelow round.now × Sound held.old s }
    requires can_move { CanMove (state_of round.now held.old s) way }
    ensures { answered round.now held.new s result ≡ way_after (state_of round.now held.old s) way }
{
    match way {
        Way::Leaves(i) => leave(held, round, s, i),
        Way::Joins(h) => grow(held, round, s, h),
        Way::Nothing => Outcome::FacetEnd(0),
    }
}

// The move from a place whose points all have their marks, by the labels.
pub fn make_move(held: &mut Held, round: &Round, s: Status) -> Outcome
    requires { CanStep (state_of round.now held.old s) }
    ensures { answered round.now held.new s result ≡ make_move (state_of round.now held.old s) }
{
    let way = way_here(&held.marks, s);
    moved_by(held, round, s, way)
}
