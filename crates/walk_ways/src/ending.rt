// The answer at an end, and what a way tells.
ghost use Rattle.std.specs.Prelude.{◌≡◌, ◌<◌, length};
ghost use Rattle.grid.specs.Made.{IsMade};
ghost use Rattle.moves.specs.Held.{state_of};
ghost use Rattle.moves.specs.Room.{CanPut};
ghost use Rattle.walk_ways.specs.Ends.{end_as, refused_as, told_as, CanTellEnd};

use crate::{Leads, Move, Next, WalkAnswer};
use arrays::Held;
use end_kinds::Kind;
use grid::Grid;
use moves::{Status, put_points};
use rules::Round;
use walk_places::none;

// An end with the points from number from on, complete for the block of index h.
fn ended(g: Grid, round: &Round, held: &Held, s: Status, kind: Kind, h: usize, from: usize) -> Next
    requires made { IsMade g × (h < g.indices) }
    requires can_put { let a = state_of round.now held.now s in
        CanPut a g.indices from 256 × (length a.order ≡ s.count) }
    ensures { result ≡ end_as g (state_of round.now held.now s) kind h from }
{
    let mut simplex = [0u16; 256];
    let vertices = put_points(held, round, s, g.indices, from, &mut simplex);
    let block = g.block_of(h) as u8 + 1;
    Next {
        answer: WalkAnswer::Ended {
            kind,
            block,
            vertices,
        },
        simplex,
        place: none(),
    }
}

// A refusal.
pub fn refused(number: u8) -> Next
    ensures { result ≡ refused_as number }
{
    Next {
        answer: WalkAnswer::Refused(number),
        simplex: [0u16; 256],
        place: none(),
    }
}

// What a way on tells: the move, or the end.
pub fn told(g: Grid, round: &Round, held: &Held, s: Status, way: Move) -> Next
    requires { let a = state_of round.now held.now s in
        IsMade g × CanTellEnd g a way × (length a.order ≡ s.count) }
    ensures { result ≡ told_as g (state_of round.now held.now s) way }
{
    match way.leads {
        Leads::Onto(rule) => Next {
            answer: WalkAnswer::Moved(rule),
            simplex: [0u16; 256],
            place: way.place,
        },
        Leads::PlaceEnd(h) => ended(g, round, held, s, Kind::Place, h, 0),
        Leads::FacetEnd(h) => ended(g, round, held, s, Kind::Facet, h, 1),
    }
}
