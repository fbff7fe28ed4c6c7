// One move from a place, which stays as it is.
ghost use Rattle.std.specs.Prelude.{◌≡◌, ◌≤◌};
ghost use Rattle.moves.specs.Held.{CanStep, state_of};
ghost use Rattle.rules.specs.Moves.{make_move};
ghost use Rattle.walk_ways.specs.Ways.{CanTry, way_in};

use crate::{Leads, Move};
use arrays::Held;
use moves::{Outcome, Status};
use rules::Round;
use walk_places::{kept_as, none};
use ways::make_move;

// Where the move leads that a run makes from a place with this status.
pub fn way(round: &Round, held: &Held, m: usize, s: Status) -> Move
    requires { let a = state_of round.now held.now s in CanStep a × CanTry a × (m ≤ 16) }
    ensures { result ≡ way_in m (make_move (state_of round.now held.now s)) }
{
    let mut own = *held;
    match make_move(&mut own, round, s) {
        Outcome::Moved(r) => Move {
            leads: Leads::Onto(r.rule),
            place: kept_as(&own.first, m, &own.order, r.count),
        },
        Outcome::PlaceEnd(h) => Move {
            leads: Leads::PlaceEnd(h),
            place: none(),
        },
        Outcome::FacetEnd(h) => Move {
            leads: Leads::FacetEnd(h),
            place: none(),
        },
    }
}
